use armcaps_alt::CallbackKind;

// What a plan keeps of a selected entry: the place of its site and its length in bytes, and the place of its
// replacement or, in its stead, its callback.
#[derive(Clone, Copy, Debug)]
pub(crate) struct Kept {
    pub(crate) site: u32,
    pub(crate) repl: u32,
    pub(crate) len: u8,
    pub(crate) callback: Option<CallbackKind>,
}
