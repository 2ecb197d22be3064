//! The handle of a layout in a program in C.
ghost use Rattle.std.specs.Prelude.{◌≡◌, true, false, None, IfSome};
ghost use Rattle.std.specs.Fn.{FnOnceReturnsAt};

use crate::contents::Contents;
use crate::kept_contents::KeptContents;
use railway::Railway;
use std::alloc::Global;
use std::mem;

/// The handle of a layout in a program in C: 16 bytes that it keeps and passes to each call. All
/// zeros mean no layout.
#[repr(C)]
#[derive(Drop)]
pub struct Layout {
    inside: KeptContents,
    /// Whether there is a layout.
    pub made: bool,
    ghost agrees: { inside.made ≡ made },
}

impl Layout {
    ghost use Rattle.station_c.specs.Layout.{IsUnchanged, railway_at};

    /// Creates a handle without a layout, as C begins with.
    pub(crate) fn none(alloc: Global) -> Layout
        ensures { result.made ≡ false }
    {
        Layout {
            inside: KeptContents::none(alloc),
            made: false,
        }
    }

    /// Takes the layout out, if there is one.
    pub(crate) fn take(&mut self, alloc: Global) -> Option<Box<Contents, Global>>
        ensures found { IfSome result
            (λ contents. (self.old.made ≡ true) × (contents.value ≡ self.old.inside.contents)) }
        ensures left { IfSome result (λ _. self.new.made ≡ false) }
        ensures none { result ≡ None → (self.old.made ≡ false) × (self.new ≡ self.old) }
    {
        if !self.made {
            return None;
        }
        let Layout { inside, made: _ } = mem::replace(self, Layout::none(alloc));
        Some(inside.into_box())
    }

    /// Returns what `find` finds in the railway beside the layout, if there is one. The layout stays
    /// as it is.
    pub(crate) fn find<T, F: FnOnce(&Railway) -> Option<T>>(
        &mut self,
        alloc: Global,
        find: F,
    ) -> Option<T>
        requires { F.IsAlwaysCallable find }
        ensures found { IfSome (railway_at self.old)
            (λ railway. FnOnceReturnsAt F.FnOnce find railway result) }
        ensures none { railway_at self.old ≡ None → result ≡ None }
        ensures untouched { IsUnchanged self.old self.new }
    {
        let contents = self.take(alloc)?;
        let found = contents.railway.as_ref().and_then(find);
        self.put(contents);
        found
    }

    /// Puts in a layout; there was none.
    pub(crate) fn put(&mut self, contents: Box<Contents, Global>)
        requires none { self.old.made ≡ false }
        ensures made { self.new.made ≡ true }
        ensures contents { self.new.inside.contents ≡ contents.value }
    {
        *self = Layout {
            inside: KeptContents::of(contents),
            made: true,
        };
    }
}
