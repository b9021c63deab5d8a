//! Looks symbols up.

ghost use Rattle.elf_image.specs.Names.{value_of};
ghost use Rattle.std.specs.Prelude.{◌≡◌};

use crate::image::Image;

/// The value of the image's first symbol with a name, if it has one.
pub fn symbol(image: &Image, name: &[u8]) -> Option<u32>
    ensures { result ≡ value_of name.now image.now.symbols }
{
    let mut symbols = image.symbols.as_slice().iter();
    let first = symbols.find(|symbol| symbol.name.as_slice() == name)?;
    Some(first.value)
}
