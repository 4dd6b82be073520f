//! A text of a map, read and written.

use crush_map::CrushMap;
use crush_text::{TextFault, read_map, write_map};
use std::io;
use std::io::{Read, Write};

/// Reads the map of the text on standard input, or else finds the text's first fault.
pub(crate) fn read<R: AllocGlobal + Input>(rt: &R) -> io::Result<Result<CrushMap, TextFault>> {
    let mut text = Vec::new(rt.alloc());
    rt.reader().read_to_end(&mut text)?;
    Ok(read_map(rt.alloc(), text.as_slice())?)
}

/// Writes the canonical text of the map whose text is on standard input, or else returns that
/// text's first fault.
pub(crate) fn rewrite<R: AllocGlobal + Input + Print>(rt: &R) -> io::Result<Option<TextFault>> {
    match read(rt)? {
        Ok(map) => {
            let written = write_map(rt.alloc(), &map)?;
            io::writer(rt).write_all(written.as_slice())?;
            Ok(None)
        }
        Err(fault) => Ok(Some(fault)),
    }
}
