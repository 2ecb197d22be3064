//! A layout behind a pointer that a program in C keeps.
ghost use Rattle.std.specs.Prelude.{◌≡◌, Bool, true, false};
ghost use Rattle.station_c.specs.declared.contents.Contents.{Contents as ContentsValue};
ghost use Rattle.station_c.specs.Kept.{kept_owns, contents_coded};

use crate::contents::Contents;
use crate::raw::Raw;
use std::alloc::Global;
use std::marker::Model;
use std::ptr;

/// A layout behind a pointer that a program in C keeps and never dereferences, or nothing.
///
/// Dropping it leaks the layout.
#[repr(C)]
#[derive(Drop)]
pub struct KeptContents {
    at: *mut u8,
    alloc: Global,
    /// Whether there is a layout behind the pointer.
    pub ghost made: { Bool },
    /// The layout.
    pub ghost contents: { ContentsValue } by { contents_coded },
}

impl Model for KeptContents {
    ghost also_owns = { λ kept. kept_owns kept.made kept.alloc kept.at kept.contents };
}

impl KeptContents {
    /// Nothing.
    pub(crate) fn none(alloc: Global) -> KeptContents
        ensures { result.made ≡ false }
    {
        KeptContents {
            at: ptr::null_mut(),
            alloc,
        }
    }

    /// The layout in this box.
    pub(crate) fn of(contents: Box<Contents, Global>) -> KeptContents
        ensures made { result.made ≡ true }
        ensures world { result.contents ≡ contents.value }
    {
        KeptContents::of_raw(Raw::of(contents))
    }

    /// Returns its box.
    pub(crate) fn into_box(self) -> Box<Contents, Global>
        requires { self.made ≡ true }
        ensures { result.value ≡ self.contents }
    {
        self.into_raw().into_box()
    }

    fn of_raw(raw: Raw<Contents, Global>) -> KeptContents
        ensures { (result.made ≡ true) × (result.contents ≡ raw.value) }
    {
        let Raw { at, alloc } = raw;
        KeptContents {
            at: at as *mut u8,
            alloc,
        }
    }

    fn into_raw(self) -> Raw<Contents, Global>
        requires { self.made ≡ true }
        ensures { result.value ≡ self.contents }
    {
        let KeptContents { at, alloc } = self;
        Raw {
            at: at as *mut Contents,
            alloc,
        }
    }
}
