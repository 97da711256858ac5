//! Documents in one text: those of a folder's teams, or a release list and a task set.

use std::fs;
use std::io::{self, Cursor, Error, ErrorKind, Read};
use task_sheet::Name;

/// Documents in one text, to be read. No contract can say what it is, as of a file.
#[derive(Drop)]
pub(crate) struct Documents {
    text: Cursor<Vec<u8>>,
}

impl Read for Documents {
    fn read(&mut self, buffer: &mut [u8]) -> io::Result<usize> {
        self.text.read(buffer)
    }
}

// More bytes than an input may have: no more of them are read.
const ENOUGH: usize = 16_777_217;

// That no team has a document.
fn teamless() -> Error {
    Error::new(ErrorKind::NotFound, "no file TEAM.toml in this folder")
}

// That a file isn't called `TEAM.toml`.
fn nameless(rt: &HostRuntime, file: &str) -> Error {
    match format!(in rt.alloc(); "no name of a team: {file}") {
        Ok(said) => Error::new(ErrorKind::InvalidInput, said.as_str()),
        Err(error) => Error::from(error),
    }
}

// The same error, of a document.
fn of_document(rt: &HostRuntime, stem: &str, error: Error) -> Error {
    match format!(in rt.alloc(); "{stem}.toml: {error}") {
        Ok(said) => Error::new(error.kind(), said.as_str()),
        Err(_) => error,
    }
}

// The documents of a folder: the teams that have one, `TEAM.toml`, by their names, and whether the node has, `node.toml`.
#[derive(Drop)]
struct Listed {
    teams: Vec<Name>,
    has_node: bool,
}

impl Listed {
    // Takes a file. One that isn't called `TEAM.toml` is an error, so that no document is left out unseen.
    fn take(&mut self, rt: &HostRuntime, file: &str) -> io::Result<()> {
        let Some(stem) = file.strip_suffix(".toml") else {
            return Err(nameless(rt, file));
        };
        if stem == "node" {
            self.has_node = true;
            return Ok(());
        }
        match Name::read(stem.as_bytes()) {
            Ok(team) => self.teams.push(team)?,
            Err(_) => return Err(nameless(rt, file)),
        }
        Ok(())
    }
}

// A file's name ends with `.toml`, in whatever letters, and doesn't begin with a dot: such a file is an editor's, say.
fn is_document(rt: &HostRuntime, file: &str) -> io::Result<bool> {
    let name = file.to_ascii_lowercase(rt.alloc())?;
    Ok(name.as_str().ends_with(".toml") && !file.starts_with('.'))
}

// The documents that a folder has, of one team at least.
fn documents_in(rt: &HostRuntime, folder: &str) -> io::Result<Listed> {
    let mut listed = Listed {
        teams: Vec::new(rt.alloc()),
        has_node: false,
    };
    for entry in fs::read_dir(rt, folder)? {
        let entry = entry?;
        if is_document(rt, entry.file_name())? {
            listed.take(rt, entry.file_name())?;
        }
    }
    if listed.teams.is_empty() {
        return Err(teamless());
    }
    listed.teams.sort_unstable();
    Ok(listed)
}

/// The bytes of a reader, the first of them where there are too many.
pub(crate) fn all_of<R: Read + Drop>(rt: &HostRuntime, reader: R) -> io::Result<Vec<u8>> {
    let mut first = reader.take(ENOUGH as u64);
    let mut bytes = Vec::new(rt.alloc());
    first.read_to_end(&mut bytes)?;
    Ok(bytes)
}

// Those of a file.
fn bytes_of(rt: &HostRuntime, path: &str) -> io::Result<Vec<u8>> {
    let file = fs::open(rt, path)?;
    all_of(rt, file)
}

// The bytes of a document.
fn document_of(rt: &HostRuntime, folder: &str, stem: &str) -> io::Result<Vec<u8>> {
    let path = format!(in rt.alloc(); "{folder}/{stem}.toml")?;
    match bytes_of(rt, path.as_str()) {
        Ok(bytes) => Ok(bytes),
        Err(error) => Err(of_document(rt, stem, error)),
    }
}

// Adds the node's document behind a line `#% COUNT`.
fn push_node(rt: &HostRuntime, text: &mut Vec<u8>, folder: &str) -> io::Result<()> {
    let document = document_of(rt, folder, "node")?;
    let count = document.len();
    let head = format!(in rt.alloc(); "#% {count}\n")?;
    text.extend_from_slice(head.as_bytes())?;
    text.extend_from_slice(&document)?;
    Ok(())
}

// Adds a team's document behind a line `#% TEAM COUNT`.
fn push_team(rt: &HostRuntime, text: &mut Vec<u8>, folder: &str, team: &Name) -> io::Result<()> {
    let document = document_of(rt, folder, team.as_str())?;
    let count = document.len();
    let head = format!(in rt.alloc(); "#% {team} {count}\n")?;
    text.extend_from_slice(head.as_bytes())?;
    text.extend_from_slice(&document)?;
    Ok(())
}

// The documents of a folder in one text: the node's, where there is one, and those of the teams by their names.
fn text_of(rt: &HostRuntime, folder: &str) -> io::Result<Vec<u8>> {
    let mut text = Vec::new(rt.alloc());
    let listed = documents_in(rt, folder)?;
    if listed.has_node {
        push_node(rt, &mut text, folder)?;
    }
    for team in &listed.teams {
        if text.len() >= ENOUGH {
            break;
        }
        push_team(rt, &mut text, folder, team)?;
    }
    Ok(text)
}

/// The documents of a folder that has one of a team: the node's, `node.toml`, where there is one, behind a line `#% COUNT`,
/// and those of the teams, each behind a line `#% TEAM COUNT`, by their names.
pub(crate) fn open_folder(rt: &HostRuntime, folder: &str) -> io::Result<Documents> {
    let text = text_of(rt, folder)?;
    Ok(Documents {
        text: Cursor::new(text),
    })
}

// Puts a byte 1 for each byte 0, which is as wrong in a line of a list.
fn replace_zeros(bytes: &mut [u8]) {
    for byte in bytes.iter_mut() {
        if *byte == 0 {
            *byte = 1;
        }
    }
}

/// A release list and a task set in one text, a byte 0 between them.
pub(crate) fn open_both(list: Vec<u8>, new: &[u8]) -> io::Result<Documents> {
    let mut text = list;
    replace_zeros(&mut text);
    text.push(0)?;
    text.extend_from_slice(new)?;
    Ok(Documents {
        text: Cursor::new(text),
    })
}
