//! Properties that an object has twice.

use crate::decoding::{decoded, is_text, text_in};
use crate::positions::{skip_space, string_end, value_end};
use crate::span::{Span, between_quotes, byte_at, bytes_in};
use std::alloc::{AllocError, Global};

/// How deep arrays and objects may be nested.
const MOST_OPEN: usize = 128;

/// The first value of a hash, and its factor: the hash of Fowler, Noll and Vo.
const HASH_BASIS: u64 = 0xcbf2_9ce4_8422_2325;

const HASH_FACTOR: u64 = 0x0100_0000_01b3;

/// What an object of a configuration has as its properties.
#[derive(Clone, Copy, Debug, PartialEq, Eq)]
pub enum ObjectKind {
    /// Kinds of blocks.
    Top,
    /// Types of resources.
    Types,
    /// The resources of a type.
    Resources,
    /// Anything else.
    Other,
}

/// A property that its object has more than once.
#[derive(Drop)]
pub struct Repeated {
    /// What its object has.
    pub kind: ObjectKind,
    /// Where the name of its object is, with its quotes. The top object has none.
    pub object: Option<Span>,
    /// Where the last property's name is, with its quotes. That property counts.
    pub last: Span,
    /// The names of the others, in their order.
    pub others: Vec<Span>,
}

/// A property's name.
#[derive(Clone, Copy)]
struct Name {
    /// The number of its object.
    object: usize,
    hash: u64,
    span: Span,
    kind: ObjectKind,
    /// The name of its object.
    outer: Option<Span>,
}

/// An array or an object that isn't closed yet.
#[derive(Clone, Copy)]
struct Open {
    /// The number of an object, or nothing for an array.
    object: Option<usize>,
    kind: ObjectKind,
    /// What an object that is its next value has.
    next: ObjectKind,
    /// The name of an object.
    name: Option<Span>,
    /// The last name in an object.
    last: Option<Span>,
    /// Whether the next text is a name.
    is_at_name: bool,
}

/// A text while it is read.
#[derive(Drop)]
struct Scan<'a> {
    alloc: Global,
    text: &'a [u8],
    open: Vec<Open>,
    names: Vec<Name>,
    objects: usize,
}

/// Returns the properties that an object of a JSON text has more than once, but for comments, by the places of the last ones.
/// Of a text that isn't JSON, it returns some of them.
///
/// # Errors
///
/// Fails only if memory runs out.
pub fn repeated_properties(alloc: Global, text: &[u8]) -> Result<Vec<Repeated>, AllocError> {
    let mut scan = Scan {
        alloc,
        text,
        open: Vec::new(alloc),
        names: Vec::new(alloc),
        objects: 0,
    };
    scan.read()?;
    groups_of(alloc, text, scan.into_names())
}

/// Returns the texts of a file that are alike, by the places of the last ones, of texts at some places.
///
/// # Errors
///
/// Fails only if memory runs out.
pub(crate) fn repeated_texts(
    alloc: Global,
    text: &[u8],
    spans: &[Span],
) -> Result<Vec<Repeated>, AllocError> {
    let mut names = Vec::with_capacity(alloc, spans.len())?;
    for span in spans {
        names.push(Name {
            object: 0,
            hash: hash_of(alloc, bytes_in(text, between_quotes(text, *span)))?,
            span: *span,
            kind: ObjectKind::Other,
            outer: None,
        })?;
    }
    groups_of(alloc, text, names)
}

/// Returns the groups of names that are alike and in one object, by the places of the last ones.
fn groups_of(alloc: Global, text: &[u8], names: Vec<Name>) -> Result<Vec<Repeated>, AllocError> {
    let mut names = names;
    names.sort_unstable_by_key(|name| (name.object, name.hash, name.span.start));
    let mut found: Vec<Repeated> = Vec::new(alloc);
    add_groups(alloc, &mut found, text, names.as_slice())?;
    found.sort_unstable_by_key(|group| group.last.start);
    Ok(found)
}

impl Scan<'_> {
    /// Reads the text.
    fn read(&mut self) -> Result<(), AllocError> {
        let mut at = 0usize;
        for _ in 0..self.text.len() {
            at = skip_space(self.text, at);
            if at >= self.text.len() || self.open.len() > MOST_OPEN {
                break;
            }
            at = self.step(at)?;
        }
        Ok(())
    }

    /// Returns the names that were read.
    fn into_names(self) -> Vec<Name> {
        let Scan {
            alloc: _,
            text: _,
            open: _,
            names,
            objects: _,
        } = self;
        names
    }

    /// Reads the token at a position, and returns the position after it.
    fn step(&mut self, at: usize) -> Result<usize, AllocError> {
        let next = at.saturating_add(1);
        match byte_at(self.text, at) {
            b'{' => self.begin(true)?,
            b'[' => self.begin(false)?,
            b'}' | b']' => {
                self.open.pop();
            }
            b',' => self.at_name(true),
            b':' => self.at_name(false),
            b'"' => {
                let end = string_end(self.text, at);
                self.name(Span { start: at, end })?;
                return Ok(end.max(next));
            }
            _ => return Ok(value_end(self.text, at).max(next)),
        }
        Ok(next)
    }

    /// Notes whether the next text of the innermost object is a name.
    fn at_name(&mut self, is_at_name: bool) {
        if let Some(innermost) = self.open.last_mut() {
            innermost.is_at_name = is_at_name && innermost.object.is_some();
        }
    }

    /// Begins an object or an array.
    fn begin(&mut self, is_object: bool) -> Result<(), AllocError> {
        let (kind, name) = match self.open.last() {
            Some(outer) => (outer.next, outer.last),
            None => (ObjectKind::Top, None),
        };
        let object = if is_object { Some(self.objects) } else { None };
        self.objects = self.objects.saturating_add(1);
        self.open.push(Open {
            object,
            kind: if is_object { kind } else { ObjectKind::Other },
            next: ObjectKind::Other,
            name,
            last: None,
            is_at_name: is_object,
        })?;
        Ok(())
    }

    /// Notes a name, if the text in this range is one.
    fn name(&mut self, span: Span) -> Result<(), AllocError> {
        let raw = bytes_in(self.text, between_quotes(self.text, span));
        let Some(innermost) = self.open.last_mut() else {
            return Ok(());
        };
        let Some(object) = innermost.object else {
            return Ok(());
        };
        if !innermost.is_at_name {
            return Ok(());
        }
        let (kind, outer) = (innermost.kind, innermost.name);
        innermost.next = kind_below(kind, raw);
        innermost.last = Some(span);
        if raw == b"//".as_slice() {
            return Ok(());
        }
        let hash = hash_of(self.alloc, raw)?;
        self.names.push(Name {
            object,
            hash,
            span,
            kind,
            outer,
        })?;
        Ok(())
    }
}

/// Returns what the object at a property of an object has.
fn kind_below(kind: ObjectKind, name: &[u8]) -> ObjectKind {
    match kind {
        ObjectKind::Top if name == b"resource".as_slice() => ObjectKind::Types,
        ObjectKind::Types => ObjectKind::Resources,
        _ => ObjectKind::Other,
    }
}

/// Returns a hash of the text that is spelled between quotes.
fn hash_of(alloc: Global, raw: &[u8]) -> Result<u64, AllocError> {
    if raw.contains(&b'\\') {
        let text = decoded(alloc, raw)?;
        return Ok(hash_of_bytes(text.as_bytes()));
    }
    Ok(hash_of_bytes(raw))
}

fn hash_of_bytes(bytes: &[u8]) -> u64 {
    let mut hash = HASH_BASIS;
    for byte in bytes {
        hash = (hash ^ *byte as u64).wrapping_mul(HASH_FACTOR);
    }
    hash
}

/// Adds the groups of names that are alike and in one object, of names that are sorted by object, hash and place.
fn add_groups(
    alloc: Global,
    found: &mut Vec<Repeated>,
    text: &[u8],
    names: &[Name],
) -> Result<(), AllocError> {
    let mut before: Option<Name> = None;
    let mut is_open = false;
    for name in names {
        let is_same = match before {
            Some(other) => is_alike(alloc, text, other, *name)?,
            None => false,
        };
        if let Some(other) = before
            && is_same
        {
            add(alloc, found, is_open, other, *name)?;
        }
        is_open = is_same;
        before = Some(*name);
    }
    Ok(())
}

/// Returns whether two names are alike and in one object.
fn is_alike(alloc: Global, text: &[u8], one: Name, other: Name) -> Result<bool, AllocError> {
    if one.object != other.object || one.hash != other.hash {
        return Ok(false);
    }
    let first = text_in(alloc, text, one.span)?;
    Ok(is_text(text, other.span, first.as_str()))
}

/// Adds a name to the last group, or to a new one with the name before it.
fn add(
    alloc: Global,
    found: &mut Vec<Repeated>,
    is_open: bool,
    before: Name,
    name: Name,
) -> Result<(), AllocError> {
    if !is_open {
        found.push(Repeated {
            kind: name.kind,
            object: name.outer,
            last: name.span,
            others: Vec::new(alloc),
        })?;
    }
    if let Some(group) = found.last_mut() {
        group.others.push(before.span)?;
        group.last = name.span;
    }
    Ok(())
}
