//! The log beside a database file.

use std::fs;
use std::io::ErrorKind;

/// The path of the log, which lies beside the file to which a path leads. None where that cannot be told.
fn log_at(rt: &HostRuntime, path: &str) -> Option<String> {
    let file = fs::canonicalize(rt, path).ok()?;
    format!(in rt.alloc(); "{}-wal", file.as_str()).ok()
}

/// Whether a database file has a log, or may have one.
pub fn has_log(rt: &HostRuntime, path: &str) -> bool {
    let Some(log) = log_at(rt, path) else {
        return true;
    };
    match fs::symlink_metadata(rt, log.as_str()) {
        Err(error) => error.kind() != ErrorKind::NotFound,
        Ok(_) => true,
    }
}

/// Removes the log of a database file that this program has open, so that nobody else has, if the log has nothing.
pub fn remove_empty_log(rt: &HostRuntime, path: &str) {
    if let Some(log) = log_at(rt, path) {
        if fs::symlink_metadata(rt, log.as_str()).is_ok_and(|found| found.len() == 0) {
            let _ = fs::remove_file(rt, log.as_str());
        }
    }
}
