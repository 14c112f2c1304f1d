// Why a journal can't be used.
use std::io::{self, ErrorKind};

/// Why a call on a journal's file failed.
#[derive(Clone, Copy, Debug, PartialEq, Eq)]
pub enum DiskError {
    /// Another process uses the file.
    Held,
    /// Its folder isn't there.
    NoFolder,
    /// It's a folder itself.
    IsFolder,
    /// It's a link that leads nowhere.
    LooseLink,
    /// It may not be read, written or made.
    NotAllowed,
    /// There is no room for it.
    NoRoom,
    /// Another fault of the system.
    Other,
}

impl DiskError {
    /// Why the system refused a call.
    pub(crate) fn of(error: &io::Error) -> DiskError {
        match error.kind() {
            ErrorKind::NotFound | ErrorKind::NotADirectory => DiskError::NoFolder,
            ErrorKind::IsADirectory => DiskError::IsFolder,
            ErrorKind::FilesystemLoop => DiskError::LooseLink,
            ErrorKind::PermissionDenied | ErrorKind::ReadOnlyFilesystem => DiskError::NotAllowed,
            ErrorKind::StorageFull | ErrorKind::QuotaExceeded | ErrorKind::FileTooLarge => {
                DiskError::NoRoom
            }
            _ => DiskError::Other,
        }
    }
}
