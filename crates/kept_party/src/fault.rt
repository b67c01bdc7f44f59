/// Why a party that is kept did not reply.
#[derive(Debug, Drop)]
pub enum KeptFault<R> {
    /// The party refuses, or wants memory. It and the disk are as they were.
    Refused(R),
    /// A call of the disk failed. The party did what it was asked, and its file has what stood there, or that too; each later
    /// call is `Reopen`.
    DiskFault,
    /// A call of the disk failed before: the file is to be opened anew.
    Reopen,
}
