//! Commands, as they are written in a line.
use doc_nodes::Shared;
use joined_results::both;
use std::alloc::{AllocError, Global};
use text_edits::Text;

/// A command's source, and the text of the blob that it asks for, where there is one.
#[derive(Drop)]
pub(crate) struct Command {
    pub(crate) source: Shared<Text>,
    pub(crate) blob: Option<Shared<Text>>,
}

/// The value, shared.
pub(crate) fn shared<T: Drop>(alloc: Global, value: T) -> Result<Shared<T>, AllocError> {
    match Shared::new(alloc, value) {
        Ok(shared) => Ok(shared),
        Err(_) => Err(AllocError),
    }
}

/// A text, in which `;` stands for the end of a line.
pub(crate) fn scalars(alloc: Global, written: &str) -> Result<Vec<char>, AllocError> {
    let mut scalars = Vec::new(alloc);
    for scalar in written.chars() {
        scalars.push(if scalar == ';' { '\n' } else { scalar })?;
    }
    Ok(scalars)
}

fn text_of(alloc: Global, written: &str) -> Result<Shared<Text>, AllocError> {
    let scalars = scalars(alloc, written)?;
    let text = Text::from_slice(alloc, scalars.as_slice());
    drop(scalars);
    shared(alloc, text?)
}

fn blob_of(alloc: Global, written: Option<&str>) -> Result<Option<Shared<Text>>, AllocError> {
    match written {
        Some(written) => Ok(Some(text_of(alloc, written)?)),
        None => Ok(None),
    }
}

impl Command {
    /// The command that is written so: behind `@` the blob's text, where there is one.
    pub(crate) fn new(alloc: Global, written: &str) -> Result<Command, AllocError> {
        let (source, blob) = match written.split_once('@') {
            Some((source, blob)) => (source, Some(blob)),
            None => (written, None),
        };
        let (source, blob) = both(text_of(alloc, source), blob_of(alloc, blob))?;
        Ok(Command { source, blob })
    }

    /// The blob's text, for one more owner.
    pub(crate) fn shared_blob(&self) -> Result<Option<Shared<Text>>, AllocError> {
        match &self.blob {
            Some(blob) => Ok(Some(blob.copy()?)),
            None => Ok(None),
        }
    }
}
