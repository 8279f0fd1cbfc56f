//! The files and variables that say in which time zone a computer is.
use crate::local_zone::LocalZone;
use jiff::tz::{TimeZone, Tzif};
use std::alloc::AllocError;
use std::env::VarError;
use std::io::{ErrorKind, Read};
use std::{env, fs};

/// The file with the computer's zone.
const SYSTEM_ZONE: &str = "/etc/localtime";

/// The folder with the files of zones, if the variable TZDIR names no other.
const ZONES: &str = "/usr/share/zoneinfo";

/// When the clocks change by a rule that does not say it, as in the C library.
const CHANGES: &str = ",M3.2.0,M11.1.0";

/// The most bytes read of a zone's file.
const MOST_BYTES: u64 = 1 << 20;

/// Returns no zone, or `AllocError` if the fault was a lack of memory.
fn unread(fault: ErrorKind) -> Result<Option<LocalZone>, AllocError> {
    if fault == ErrorKind::OutOfMemory {
        Err(AllocError)
    } else {
        Ok(None)
    }
}

/// Returns the zone of the file at a path, if it is the file of a zone.
fn read_table(rt: &HostRuntime, path: &str) -> Result<Option<LocalZone>, AllocError> {
    match fs::metadata(rt, path) {
        Ok(found) if found.is_file() => {}
        Ok(_) => return Ok(None),
        Err(fault) => return unread(fault.kind()),
    }
    let file = match fs::open(rt, path) {
        Ok(file) => file,
        Err(fault) => return unread(fault.kind()),
    };
    let mut bytes = Vec::new(rt.alloc());
    if let Err(fault) = file.take(MOST_BYTES).read_to_end(&mut bytes) {
        return unread(fault.kind());
    }
    match Tzif::parse(rt.alloc(), None, bytes.as_slice()) {
        Ok(table) => Ok(Some(LocalZone::Table(table))),
        Err(jiff::Error::OutOfMemory) => Err(AllocError),
        Err(_) => Ok(None),
    }
}

/// Returns the folder with the files of zones.
fn zones_folder(rt: &HostRuntime) -> Result<Option<String>, AllocError> {
    match env::var(rt, "TZDIR") {
        Ok(folder) => Ok(Some(folder)),
        Err(VarError::OutOfMemory) => Err(AllocError),
        Err(_) => Ok(None),
    }
}

/// Returns the zone of the file with this name, if there is one.
fn read_named(rt: &HostRuntime, name: &str) -> Result<Option<LocalZone>, AllocError> {
    if name.starts_with('/') {
        return read_table(rt, name);
    }
    let folder = zones_folder(rt)?;
    let folder = folder.as_ref().map_or(ZONES, |folder| folder.as_str());
    let path = format!(in rt.alloc(); "{folder}/{name}")?;
    read_table(rt, path.as_str())
}

/// Returns a name without the colon that it may begin with.
fn without_colon(text: &str) -> &str {
    text.strip_prefix(':').unwrap_or(text)
}

/// Returns the zone of a POSIX rule, if this text is one.
fn rule_zone(rt: &HostRuntime, rule: &str) -> Result<Option<LocalZone>, AllocError> {
    if let Ok(zone) = TimeZone::posix(rule) {
        return Ok(Some(LocalZone::Rule(zone)));
    }
    let whole = format!(in rt.alloc(); "{rule}{CHANGES}")?;
    Ok(TimeZone::posix(whole.as_str()).ok().map(LocalZone::Rule))
}

/// Returns the zone that a name or a rule says, if it says one.
fn named_zone(rt: &HostRuntime, name: &str) -> Result<Option<LocalZone>, AllocError> {
    if name.is_empty() {
        return Ok(None);
    }
    match read_named(rt, name)? {
        Some(zone) => Ok(Some(zone)),
        None => rule_zone(rt, name),
    }
}

/// Returns the zone of this computer. The variable TZ may be the name of a file below /usr/share/zoneinfo, or below
/// TZDIR; the absolute path of such a file; or a rule, as `EST5EDT,M3.2.0,M11.1.0`. Without TZ, the zone is that of
/// /etc/localtime. If TZ is empty, or there is no such zone, the zone is UTC. Returns `AllocError` only if memory for
/// it is refused.
pub fn system_zone(rt: &HostRuntime) -> Result<LocalZone, AllocError> {
    let zone = match env::var(rt, "TZ") {
        Ok(text) => named_zone(rt, without_colon(text.as_str()))?,
        Err(VarError::NotPresent) => read_table(rt, SYSTEM_ZONE)?,
        Err(VarError::OutOfMemory) => return Err(AllocError),
        Err(VarError::NotUnicode) => None,
    };
    Ok(zone.unwrap_or(LocalZone::Utc))
}
