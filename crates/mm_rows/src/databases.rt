//! Small databases.

/// Strings of two variables.
pub const WORDS: &[u8] = b"\
$c |- str a b c $.
$v x y $.
sx $f str x $.
sy $f str y $.
sa $a str a $.
sb $a str b $.
sc $a str c $.
sxy $a str x y $.
cat $a |- x y $.
abc $p |- a b c $= ? $.
";

/// The same, where the proof that is still open was saved.
pub const WORDS_SAVED: &[u8] = b"\
$c |- str a b c $.
$v x y $.
sx $f str x $.
sy $f str y $.
sa $a str a $.
sb $a str b $.
sc $a str c $.
sxy $a str x y $.
cat $a |- x y $.
abc $p |- a b c $=
      ? ? cat $.
";

/// Three theorems, of which the first has no proof yet.
pub const CHAIN: &[u8] = b"\
$c |- wff ( -> ) $.
$v P Q $.
wp $f wff P $.
wq $f wff Q $.
wim $a wff ( P -> Q ) $.
ax $a |- ( P -> P ) $.
${
up.1 $e |- P $.
up $a |- ( Q -> P ) $.
$}
u $p |- ( Q -> ( P -> P ) ) $= ? $.
t1 $p |- ( Q -> ( P -> P ) ) $= wp wp wim wq wp ax up $.
t2 $p |- ( P -> ( P -> P ) ) $= wp wp wim wp wp ax up $.
";

/// The same, where the first theorem's proof was saved.
pub const CHAIN_PROVED: &[u8] = b"\
$c |- wff ( -> ) $.
$v P Q $.
wp $f wff P $.
wq $f wff Q $.
wim $a wff ( P -> Q ) $.
ax $a |- ( P -> P ) $.
${
up.1 $e |- P $.
up $a |- ( Q -> P ) $.
$}
u $p |- ( Q -> ( P -> P ) ) $=
      wp wp wim wq wp ax up $.
t1 $p |- ( Q -> ( P -> P ) ) $= wp wp wim wq wp ax up $.
t2 $p |- ( P -> ( P -> P ) ) $= wp wp wim wp wp ax up $.
";
