// The reading place of a sheet, and the guard that puts it back.
ghost use Rattle.std.specs.Prelude.{◌≡◌, drop, unwrap_or};

#[derive(Clone, Copy)]
pub struct Place {
    pub at: usize,
}

// The bytes from a place on; none from the end on.
pub(crate) fn bytes_from(sheet: &[u8], at: usize) -> &[u8]
    ensures { result.now ≡ drop at sheet.now }
{
    &sheet[at.min(sheet.len())..]
}

// Puts the place back when it goes, unless there is nothing to go back to: the command was read whole.
pub(crate) struct Guard<'a> {
    pub(crate) place: &'a mut Place,
    pub(crate) back_to: Option<usize>,
}

impl Drop for Guard<'_> {
    fn drop(self)
        ensures { self.exit.0.now.at ≡ unwrap_or self.entry.back_to self.entry.place.now.at }
    {
        if let Some(start) = self.back_to {
            self.place.at = start;
        }
        let Guard {
            place: _,
            back_to: _,
        } = self;
    }
}
