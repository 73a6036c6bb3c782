//! The limit that the process has on the size of files.

// The number of that limit (`RLIMIT_FSIZE`).
const FILE_SIZE: i32 = 1;

/// Whether a write of the process may reach so far into a file. One past the limit would end it by a
/// signal (`SIGXFSZ`). Where the host doesn't tell the limit, there is none.
pub(crate) fn may_reach(end: u64) -> bool {
    let mut limit = libc::types::rlimit {
        rlim_cur: u64::MAX,
        rlim_max: u64::MAX,
    };
    let status = libc::getrlimit(FILE_SIZE, &mut limit);
    status != 0 || end <= limit.rlim_cur
}
