//! Error numbers of system calls (Linux, errno(3)).

/// An error number of Linux, as a positive number: 14 for EFAULT.
#[derive(Clone, Copy, PartialEq, Eq, Drop)]
pub struct Errno(pub u16);

/// Operation not permitted.
pub const EPERM: Errno = Errno(1);

/// No such thread.
pub const ESRCH: Errno = Errno(3);

/// A signal broke the call.
pub const EINTR: Errno = Errno(4);

/// Not an open file descriptor.
pub const EBADF: Errno = Errno(9);

/// Try again: no more threads may live, or a word differs.
pub const EAGAIN: Errno = Errno(11);

/// No free frames, or no room for a mapping.
pub const ENOMEM: Errno = Errno(12);

/// The access isn't allowed.
pub const EACCES: Errno = Errno(13);

/// A bad address.
pub const EFAULT: Errno = Errno(14);

/// It is there already.
pub const EBUSY: Errno = Errno(16);

/// An argument isn't valid.
pub const EINVAL: Errno = Errno(22);

/// No space is left.
pub const ENOSPC: Errno = Errno(28);

/// No such call.
pub const ENOSYS: Errno = Errno(38);
