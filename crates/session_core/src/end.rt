/// Why a session has ended. If the kernel gave up a waiting call, this is what had ended the reads.
#[derive(Clone, Copy, Debug, PartialEq, Eq)]
pub enum End {
    /// The reader's end was met, or the opening was refused in the record.
    Closed,
    /// The reader failed, was interrupted sixteen times in a row, or was read 1,048,576 times.
    ReadFault,
    /// The writer failed, took no byte, or was interrupted sixteen times in a row; or the gate refused an answer a thousand times. The
    /// writer had taken so many bytes by then; `u64::MAX` stands for that many or more.
    WriteFault { sent: u64 },
    /// Bytes that are no frame of a request, or a request out of place.
    Malformed,
    /// Sixteen requests waited, and one more came.
    Ahead,
    /// The run had no room for the record of the opening, or of the resume of a call that waited.
    RunFull,
    /// Memory ran out for the session, for its opening, or for the resume of a call that waited. One receipt may have no answer.
    NoMemory,
    /// The kernel does not know the seat, so no exit is recorded. One receipt may have no answer.
    Foreign,
    /// The starter could not start the thread that reads, and has counted that: nothing was read, and there is no process.
    NoThread,
}
