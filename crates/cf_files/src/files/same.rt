//! Whether two names stand for one file.
//! Names are followed to device and inode, or to the folder where a file is not there yet.

use std::alloc::{AllocError, Global};
use std::os::unix::fs::MetadataExt;
use std::rt::Files as FileSystem;
use std::{fs, io};

/// A file or folder of the machine, whatever its names are: its device and its inode.
#[derive(Clone, Copy, PartialEq, Eq)]
pub(crate) struct Node {
    device: u64,
    number: u64,
}

impl Node {
    /// The one of which the system tells this (`stat`).
    pub(crate) fn of(known: &impl MetadataExt) -> Self {
        Node {
            device: known.dev(),
            number: known.ino(),
        }
    }
}

/// Where a name leads: to a file that is there, or to a name in a folder that is there.
#[derive(Clone, Copy)]
enum Leads {
    File(Node),
    Folder(Node),
    Nowhere,
}

/// What the work does with the file of a name.
#[derive(Clone, Copy)]
pub(crate) enum Use {
    Read,
    /// It is to be made anew.
    Output,
    /// It was made anew.
    Begun,
}

/// A name of the command, where it led before the work began, and what is done with it.
#[derive(Drop)]
pub(crate) struct Place {
    name: String,
    leads: Leads,
    used: Use,
}

/// Two names of a command that lead to one file, of which one is an output's.
#[derive(Drop)]
pub struct Twins {
    pub name: String,
    pub other: String,
}

/// A name with what it leads to now: a file, a name in a folder that is there, or nothing that could be the same as another. The
/// error is want of memory.
pub(crate) fn place_of<R: FileSystem>(
    rt: &R,
    alloc: Global,
    name: &str,
    used: Use,
) -> io::Result<Place> {
    Ok(Place {
        name: String::from_str(alloc, name)?,
        leads: leads_of(rt, name),
        used,
    })
}

/// Whether a file of this name was made anew.
pub(crate) fn is_begun(places: &[Place], name: &str) -> bool {
    for place in places {
        if matches!(place.used, Use::Begun) && place.name.as_str() == name {
            return true;
        }
    }
    false
}

/// The first two names of one file of which one is an output's.
pub(crate) fn first_twins<R: FileSystem>(
    rt: &R,
    alloc: Global,
    places: &[Place],
) -> Result<Option<Twins>, AllocError> {
    for place in places.iter() {
        if matches!(place.used, Use::Output) {
            if let Some(twins) = twin_of(rt, alloc, places, place.name.as_str())? {
                return Ok(Some(twins));
            }
        }
    }
    Ok(None)
}

/// Whether a name leads to where standard output goes, and that is not the null device.
pub(crate) fn is_printed<R: FileSystem>(rt: &R, name: &str) -> bool {
    match (node_of(rt, name), node_of(rt, "/dev/stdout")) {
        (Some(node), Some(out)) => node == out && node_of(rt, "/dev/null") != Some(node),
        _ => false,
    }
}

/// What a name leads to, if something is there.
pub(crate) fn node_of<R: FileSystem>(rt: &R, name: &str) -> Option<Node> {
    let known = fs::metadata(rt, name).ok()?;
    Some(Node::of(&known))
}

/// The names of a file and of another place that leads to the same one. What is no file or folder, as a terminal or a pipe, is
/// never the same.
fn twin_of<R: FileSystem>(
    rt: &R,
    alloc: Global,
    places: &[Place],
    name: &str,
) -> Result<Option<Twins>, AllocError> {
    let leads = leads_of(rt, name);
    for place in places.iter() {
        if place.name.as_str() != name && is_same(place, leads, name) {
            return Ok(Some(Twins {
                name: String::from_str(alloc, name)?,
                other: place.name.clone()?,
            }));
        }
    }
    Ok(None)
}

/// Whether a place leads to where a name leads: to one file, or to one last part in one folder.
fn is_same(place: &Place, leads: Leads, name: &str) -> bool {
    match (place.leads, leads) {
        (Leads::File(one), Leads::File(other)) => one == other,
        (Leads::Folder(one), Leads::Folder(other)) => {
            one == other && last_part(place.name.as_str()) == last_part(name)
        }
        _ => false,
    }
}

/// Where a name leads, links followed: what is no file, as a folder, a pipe or a terminal, is nowhere.
fn leads_of<R: FileSystem>(rt: &R, name: &str) -> Leads {
    match fs::metadata(rt, name) {
        Ok(known) if known.is_file() => Leads::File(Node::of(&known)),
        Ok(_) => Leads::Nowhere,
        Err(_) => folder_of(rt, folder_part(name)),
    }
}

fn folder_of<R: FileSystem>(rt: &R, folder: &str) -> Leads {
    match fs::metadata(rt, folder) {
        Ok(known) => Leads::Folder(Node::of(&known)),
        Err(_) => Leads::Nowhere,
    }
}

/// The folder of a name: `.` where it has none.
fn folder_part(name: &str) -> &str {
    match name.rsplit_once('/') {
        Some(("", _)) => "/",
        Some((folder, _)) => folder,
        None => ".",
    }
}

/// The name in its folder.
fn last_part(name: &str) -> &str {
    match name.rsplit_once('/') {
        Some((_, last)) => last,
        None => name,
    }
}
