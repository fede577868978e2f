//! Where a certificate is written while nobody knows yet whether it will be right.

use crate::open_file;
use certificate_writer::{CertificateFate, test_written};
use cover_problem::Problem;
use dlx_reader::CountedReader;
use run_settings::STANDARD_INPUT;
use std::fs::{self, File, OpenOptions};
use std::io::{self, ErrorKind};

/// How many parts of one certificate may lie beside it: each run that is killed leaves one.
const MOST_PARTS: u32 = 1000;

/// Where standard input has a name.
const INPUT: &str = "/dev/stdin";

/// Where a certificate goes. A file is written under another name in its folder and takes its own only if it is to
/// stay, so that what was there before is never harmed, and no part of a certificate has the name of a whole one.
#[derive(Drop)]
pub(crate) struct CertificatePlace {
    /// The name of the file, behind all links.
    target: String,
    /// The name under which it is written; none where it is a device or a pipe, which is written directly.
    part: Option<String>,
}

impl CertificatePlace {
    /// Makes what a certificate of a problem's file is written to, where the user wants it by this name. The error says
    /// why there is none.
    pub(crate) fn create(
        rt: &HostRuntime,
        problem: &str,
        name: &str,
    ) -> Result<(CertificatePlace, File), CertificateFate> {
        if name == problem || is_same(rt, problem, name) {
            return Err(CertificateFate::Uncreated("it is the problem's file"));
        }
        match create(rt, name) {
            Ok(made) => Ok(made),
            Err(error) if error.kind() == ErrorKind::OutOfMemory => Err(CertificateFate::Untested),
            Err(error) => Err(CertificateFate::Uncreated(why_uncreated(error.kind()))),
        }
    }

    /// Returns whether it is a device or a pipe, to which nobody can write two certificates at once.
    pub(crate) fn is_device(&self) -> bool {
        self.part.is_none()
    }

    /// Reads back a certificate that was written here of a problem without a cover, and returns what became of it.
    pub(crate) fn test(&self, rt: &HostRuntime, problem: &Problem) -> CertificateFate {
        let Some(part) = &self.part else {
            return CertificateFate::Unread;
        };
        match open_file(rt, part.as_str()) {
            Ok(file) => test_written(rt.alloc(), problem, &mut CountedReader::new(file)),
            Err(_) => CertificateFate::Unread,
        }
    }

    /// Gives what was written its own name, if it is to stay, and else removes it. Returns what became of it.
    pub(crate) fn end(&self, rt: &HostRuntime, fate: CertificateFate) -> CertificateFate {
        let Some(part) = &self.part else {
            return fate;
        };
        if !fate.is_kept() {
            let _ = fs::remove_file(rt, part);
            return fate;
        }
        match fs::rename(rt, part, &self.target) {
            Ok(()) => fate,
            Err(_) => {
                let _ = fs::remove_file(rt, part);
                CertificateFate::Unwritten
            }
        }
    }
}

/// Returns why a file can't be made.
fn why_uncreated(kind: ErrorKind) -> &'static str {
    match kind {
        ErrorKind::NotFound => "no such folder",
        ErrorKind::IsADirectory => "is a directory",
        ErrorKind::NotADirectory => "a part of its path is no directory",
        ErrorKind::PermissionDenied => "permission denied",
        ErrorKind::FilesystemLoop => "too many symbolic links",
        ErrorKind::ReadOnlyFilesystem => "the file system is read-only",
        ErrorKind::StorageFull | ErrorKind::QuotaExceeded => "no space left",
        ErrorKind::InvalidFilename => "the name is too long",
        ErrorKind::AlreadyExists => "too many parts of certificates lie beside it",
        _ => "the system cannot create it",
    }
}

/// Returns whether the name is that of the problem's file, by another path or by links.
fn is_same(rt: &HostRuntime, problem: &str, name: &str) -> bool {
    let problem = if problem == STANDARD_INPUT {
        INPUT
    } else {
        problem
    };
    match (fs::canonicalize(rt, problem), fs::canonicalize(rt, name)) {
        (Ok(problem), Ok(name)) => problem.as_str() == name.as_str(),
        _ => false,
    }
}

/// Makes what is written to where a certificate is to get this name.
fn create(rt: &HostRuntime, name: &str) -> io::Result<(CertificatePlace, File)> {
    let Ok(found) = fs::metadata(rt, name) else {
        return create_beside(rt, String::from_str(rt.alloc(), name)?);
    };
    match fs::canonicalize(rt, name) {
        Ok(path) if found.is_file() => {
            // (whoever may not write to a file may not replace it here, either)
            let _ = OpenOptions::new().write(true).open(rt, name)?;
            create_beside(rt, String::from_str(rt.alloc(), path.as_str())?)
        }
        // (a file that no name leads to, as one that was removed, can't be replaced)
        _ => create_directly(rt, name),
    }
}

/// Opens a device or a pipe: it can't be replaced, and what it took can't be read back.
fn create_directly(rt: &HostRuntime, name: &str) -> io::Result<(CertificatePlace, File)> {
    let file = File::create(rt, name)?;
    let target = String::from_str(rt.alloc(), name)?;
    Ok((CertificatePlace { target, part: None }, file))
}

/// Makes a file beside one that is there or not, under the first name that nobody has taken, so that two runs never
/// write to the same one.
fn create_beside(rt: &HostRuntime, target: String) -> io::Result<(CertificatePlace, File)> {
    for number in 1..=MOST_PARTS {
        let part = format!(in rt.alloc(); "{target}.part{number}")?;
        match File::create_new(rt, &part) {
            Ok(file) => {
                let part = Some(part);
                return Ok((CertificatePlace { target, part }, file));
            }
            Err(error) if error.kind() == ErrorKind::AlreadyExists => {}
            Err(error) => return Err(error),
        }
    }
    Err(ErrorKind::AlreadyExists.into())
}
