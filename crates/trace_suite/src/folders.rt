//! The tests in a folder and its folders.

use std::alloc::Global;
use std::io::ErrorKind;
use std::rt::Files;
use std::{fs, io};

/// How many folders are listed at most.
const MOST_FOLDERS: usize = 65_536;

/// How the name of a test ends.
const ENDING: &str = ".txt";

/// Whether a word names a folder that can be seen.
pub fn is_folder<R: Files>(rt: &R, path: &str) -> bool {
    match fs::metadata(rt, path) {
        Ok(found) => found.is_dir(),
        Err(_) => false,
    }
}

/// What was found in folders: tests, and further folders.
#[derive(Drop)]
struct Found {
    alloc: Global,
    tests: Vec<String>,
    folders: Vec<String>,
}

impl Found {
    /// Adds the tests and the folders of a folder.
    fn list<R: Files + Alloc + Clone + Drop>(&mut self, rt: &R, folder: &str) -> io::Result<()> {
        for entry in fs::read_dir(rt, folder)? {
            let entry = entry?;
            let is_folder = entry.file_type()?.is_dir();
            let path = String::from_str(self.alloc, entry.path().as_str())?;
            if is_folder {
                self.folders.push(path)?;
            } else if entry.file_name().ends_with(ENDING) {
                self.tests.push(path)?;
            }
        }
        Ok(())
    }
}

/// The paths of the files in a folder and in its folders whose names end in `.txt`, by name. A link to a folder isn't followed. An error where
/// one of the folders can't be listed.
pub fn tests_in<R: Files + Alloc + Clone + Drop>(
    rt: &R,
    alloc: Global,
    folder: &str,
) -> io::Result<Vec<String>> {
    let mut found = Found {
        alloc,
        tests: Vec::new(alloc),
        folders: Vec::new(alloc),
    };
    found.list(rt, folder)?;
    for _ in 0..MOST_FOLDERS {
        let Some(next) = found.folders.pop() else {
            let Found { mut tests, .. } = found;
            tests.sort_unstable();
            return Ok(tests);
        };
        found.list(rt, next.as_str())?;
    }
    Err(io::Error::from(ErrorKind::Other))
}
