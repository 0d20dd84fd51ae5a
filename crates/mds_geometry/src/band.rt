//! Intervals of longitude or latitude.
ghost use Rattle.std.specs.Prelude.{◌≡◌, true};
ghost use Rattle.mds_geometry.specs.Bounds.{lies_in, IsWider};

use mds_text::Units7;

/// An interval from a least to a greatest coordinate, in units of 10^-7 degree.
#[derive(Clone, Copy)]
pub(crate) struct Band {
    /// The least coordinate.
    pub(crate) least: i64,
    /// The greatest coordinate.
    pub(crate) greatest: i64,
}

impl Band {
    /// The empty band.
    pub(crate) fn none() -> Band {
        Band {
            least: i64::MAX,
            greatest: i64::MIN,
        }
    }

    /// Whether a coordinate lies in the band, its ends included.
    pub(crate) fn holds(&self, x: Units7) -> bool
        ensures { result ≡ lies_in self.now x }
    {
        let x = x.get();
        self.least <= x && x <= self.greatest
    }

    /// Widens the band so that it holds a coordinate.
    #[inline(always)]
    pub(crate) fn widen(&mut self, x: Units7)
        ensures wider { IsWider self.old self.new }
        ensures held { lies_in self.new x ≡ true }
    {
        let x = x.get();
        self.least = self.least.min(x);
        self.greatest = self.greatest.max(x);
    }
}
