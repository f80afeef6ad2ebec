/// A linear byte address, as a processor looks it up in its caches under a PCID.
#[derive(Clone, Copy)]
pub struct Lookup {
    pub p: u16,
    pub pcid: u16,
    pub la: u64,
}
