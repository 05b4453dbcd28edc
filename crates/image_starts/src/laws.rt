//! The laws of loaded images.

ghost use Rattle.image_starts.specs.Images.{ImagesFit, ImagesHaveStacks, ImagesHaveTables};
ghost use Rattle.image_starts.specs.Running.{ImagesAreText, ImagesBegin, ImagesHaveWords};

use place_inject::start_fits;

/// The stack is there.
pub fn images_have_stacks()
    ensures { ImagesHaveStacks }
{}

/// The table is there, and each of its entries holds the capability with which it begins.
pub fn images_have_tables()
    ensures { ImagesHaveTables }
{}

/// The machine stands for the first state of the program.
pub fn images_fit()
    ensures { ImagesFit }
{
    start_fits();
}

/// The code is the machine's text.
pub fn images_are_text()
    ensures { ImagesAreText }
{}

/// The counter is where the image is entered.
pub fn images_begin()
    ensures { ImagesBegin }
{}

/// The machine of a contained image never has an address of more than 64 bits.
pub fn images_have_words()
    ensures { ImagesHaveWords }
{}
