//! Laws of cuts and of their bytes, which follow from what they are defined to be.
#![tactic(auto)]

ghost use Rattle.swi_cut_laws.specs.Bytes.{CutBytesAreOne, ImageBytesAreOne, UpgradeBytesAreOne};
ghost use Rattle.swi_cut_laws.specs.Cuts.{CutIsOne, DecodesBeyond, DecodesOnce, UpgradeIsOne};

/// What pins an image to its text, for who reads [`cut_by`](swi_cut::cut_by) and [`upgrade`](swi_cut::upgrade); it does
/// nothing.
///
/// Whoever cuts a text makes the same image, greedy or by whole loops; and so does whoever makes version 2 of an image.
/// For that each word of a block is one of 32 bits: of those that decode alike it is the only one.
pub fn laws_of_cuts()
    ensures cut { CutIsOne }
    ensures upgrade { UpgradeIsOne }
    ensures decodes { DecodesOnce }
    ensures beyond { DecodesBeyond }
{}

/// What pins the bytes of an image to what it says; it does nothing.
///
/// Bytes of version 2 that pass the checks and say one image are the same. So the bytes that are made of a text's cut,
/// and of an image's upgrade, are the same, whoever makes them.
pub fn laws_of_bytes()
    ensures image { ImageBytesAreOne }
    ensures cut { CutBytesAreOne }
    ensures upgrade { UpgradeBytesAreOne }
{}
