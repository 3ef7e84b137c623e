// An answer with cases as document 01's number and values: what C and Rust get of it.
ghost use Rattle.std.specs.Prelude.{◌≡◌};
ghost use Rattle.content.specs.File.{begun_by};
ghost use Rattle.content.specs.Numbers.{record_of, beginning_of, file_of, stepped_of};

use crate::{FileAt, Found, Walk, answer};
use base::Verdict;

// Where a record is: with `joined` 0 that part of the image, with 1 the front of the joining buffer.
#[repr(C)]
#[derive(Clone, Copy)]
pub struct Located {
    pub verdict: Verdict,
    pub joined: u32,
    pub start: u64,
    pub len: u64,
}

// A file by its number: the places of its first HDR1 and HDR2 in the image, and the walk at its first record; with a refusal it
// stands nowhere.
#[repr(C)]
#[derive(Clone, Copy)]
pub struct Beginning {
    pub verdict: Verdict,
    pub hdr1: u64,
    pub hdr2: u64,
    pub walk: Walk,
}

// A step of a walk: number 0, 10 or 13; the record as in Located; and the walk behind it, or where it stood with 10 and 13.
#[repr(C)]
#[derive(Clone, Copy)]
pub struct Stepped {
    pub number: u32,
    pub joined: u32,
    pub start: u64,
    pub len: u64,
    pub walk: Walk,
}

pub fn record_of(found: Result<Found, Verdict>) -> Located
    ensures { result ≡ record_of found }
{
    match found {
        Ok(place) => match place {
            Found::InImage(start, len) => Located {
                verdict: answer(0),
                joined: 0,
                start: start as u64,
                len: len as u64,
            },
            Found::Joined(len) => Located {
                verdict: answer(0),
                joined: 1,
                start: 0,
                len: len as u64,
            },
        },
        Err(verdict) => Located {
            verdict,
            joined: 0,
            start: 0,
            len: 0,
        },
    }
}

pub fn beginning_of(begun: Result<FileAt, Verdict>) -> Beginning
    ensures { result ≡ beginning_of begun }
{
    match begun {
        Ok(f) => Beginning {
            verdict: answer(0),
            hdr1: f.hdr1 as u64,
            hdr2: f.hdr2 as u64,
            walk: f.walk,
        },
        Err(verdict) => Beginning {
            verdict,
            hdr1: 0,
            hdr2: 0,
            walk: Walk {
                format: 0,
                record_length: 0,
                offset: 0,
                at: 0,
                left: 0,
            },
        },
    }
}

// A file that was looked for: 13 where there is none.
pub(crate) fn begun_by(x: Option<FileAt>) -> Result<FileAt, Verdict>
    ensures { result ≡ begun_by x }
{
    match x {
        Some(f) => Ok(f),
        None => Err(answer(13)),
    }
}

pub fn file_of(x: Option<FileAt>) -> Beginning
    ensures { result ≡ file_of x }
{
    beginning_of(begun_by(x))
}

pub fn stepped_of(from: Walk, step: Result<(Found, Walk), u32>) -> Stepped
    ensures { result ≡ stepped_of from step }
{
    match step {
        Ok((found, walk)) => match found {
            Found::InImage(start, len) => Stepped {
                number: 0,
                joined: 0,
                start: start as u64,
                len: len as u64,
                walk,
            },
            Found::Joined(len) => Stepped {
                number: 0,
                joined: 1,
                start: 0,
                len: len as u64,
                walk,
            },
        },
        Err(number) => Stepped {
            number,
            joined: 0,
            start: 0,
            len: 0,
            walk: from,
        },
    }
}
