//! Laws of images. Each function here does nothing; its contract is a law.
ghost use Rattle.nmgc_image.specs.{Left.ShownIsImage, Results.OneImage};

/// Proves that an image is well-formed (`IsImage`) if it shows a world (`IsWorld`) within the limits of scripts (`IsWithin`).
/// The segments of these limits have at most `most_object_words` words.
pub fn images_of_worlds_are_well_formed()
    ensures { ShownIsImage }
{}

/// Proves that two images are equal if the same text spells both. So an image read back is the image that was written.
pub fn a_text_spells_at_most_one_image()
    ensures { OneImage }
{}
