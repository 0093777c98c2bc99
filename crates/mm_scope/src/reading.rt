//! Reading the pieces of a database, one after another.

ghost use Rattle.std.specs.Prelude.{◌≡◌, ◌<◌, ◌^◌, length, Ok};
ghost use Rattle.mm_tokens.specs.Pieces.{pieces_of, open_in, PieceStandsIn};
ghost use Rattle.mm_tokens.specs.declared.pieces.Piece.TheVariants.{Token as a_token};
ghost use Rattle.mm_scope.specs.Contexts.{Gives, GivesPieces, state_of, empty_state, answers, add_to};
ghost use Rattle.mm_scope.specs.Reading.{after, read_from, step, without_comment};

use crate::fault::ReadFault;
use crate::mode::Mode;
use crate::reader::Reader;
use mm_tables::{Declarations, Gathered, Layers, Names, Partings, SymbolTable};
use mm_tokens::{Piece, Scanner, Token, word_of};
use std::alloc::Global;

/// A reader that has read nothing.
pub fn new_reader(alloc: Global) -> Reader
    ensures { state_of result ≡ empty_state }
{
    Reader {
        symbols: SymbolTable::new(alloc),
        labels: Names::new(alloc),
        statements: Vec::new(alloc),
        until: Vec::new(alloc),
        endings: Vec::new(alloc),
        hypotheses: Vec::new(alloc),
        blocks: Vec::new(alloc),
        partings: Partings::new(alloc),
        actives: Layers::new(alloc),
        essentials: Layers::new(alloc),
        variables: Declarations::new(alloc),
        known: Vec::new(alloc),
        mode: Mode::Start,
        begun: 0,
        label: Vec::new(alloc),
        described: None,
        buffer: Gathered::new(alloc),
        proof: 0,
        comment: None,
        needed: Gathered::new(alloc),
    }
}

/// One token, with no comment after it.
fn read_token(
    alloc: Global,
    bytes: &[u8],
    token: Token,
    reader: &mut Reader,
) -> Result<(), ReadFault>
    requires small { length bytes.now < 2 ^ 31 }
    requires stands { PieceStandsIn (length bytes.now) (a_token token) }
    ensures { Gives reader.new result (after (step add_to answers bytes.now (state_of reader.old) token) (λ t. Ok (without_comment t))) }
{
    let text = &bytes[token.start as usize..token.end as usize];
    reader.step(alloc, word_of(text), text, token.start)?;
    reader.comment = None;
    Ok(())
}

/// The pieces, one after another; answers where the comment begins that is not ended.
pub fn read_pieces(
    alloc: Global,
    bytes: &[u8],
    reader: &mut Reader,
) -> Result<Option<u64>, ReadFault>
    requires small { length bytes.now < 2 ^ 31 }
    ensures { GivesPieces reader.new result (read_from add_to answers bytes.now (state_of reader.old) (pieces_of bytes.now)) (open_in (pieces_of bytes.now)) }
{
    let mut scanner = Scanner::new(bytes);
    while let Some(piece) = scanner.next() {
        match piece {
            Piece::Token(token) => read_token(alloc, bytes, token, reader)?,
            Piece::Comment(span) => reader.comment = Some(span),
            Piece::Open(place) => return Ok(Some(place)),
        }
    }
    Ok(None)
}
