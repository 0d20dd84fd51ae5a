//! Laws of the bitmap index. Each function's contract is the law; the functions themselves do
//! nothing.

ghost use Rattle.mds_bitmaps.specs.Index.{Fits, Grows, Published, Vehicles};
ghost use Rattle.mds_bitmaps.specs.declared.bitmap_index.BitmapIndex.{BitmapIndex};

/// The index stays right as more is published.
pub fn stays_right()
    ensures { (published more : Published) (vehicles : Vehicles) (kept : BitmapIndex) → Grows published more →
        Fits published vehicles kept → Fits more vehicles kept }
{}
