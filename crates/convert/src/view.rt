// A grammar of the conversion as the check of the table sees it: any types, and any classes of their tokens, which the types do not tell.
use tables::Types;

#[derive(Clone, Copy)]
pub struct View<'a> {
    pub types: &'a Types,
    pub classes: &'a [u32; 64],
}
