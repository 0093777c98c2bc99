use mm_shell::{DatabaseRef, Done, Report, Word};

/// The action of a command: its call on the files, if it makes one.
#[derive(Drop)]
pub enum Call<'a> {
    /// None.
    Does(Done<'a>),
    /// It fetches the file of this name, and `load` makes it the database.
    Loads(Word<'a>),
    /// It writes the bytes of the database under this name, and then reports that.
    Puts(Word<'a>, DatabaseRef<'a>, Report<'a>),
}
