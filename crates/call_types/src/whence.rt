/// From where a new offset is counted.
#[derive(Clone, Copy, Debug, PartialEq, Eq)]
pub enum Whence {
    /// From the start of the file: SEEK_SET.
    Set,
    /// From the offset: SEEK_CUR.
    Cur,
    /// From the end of the file: SEEK_END.
    End,
}
