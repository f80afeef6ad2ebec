/// Which events are shown. Of several things that are asked all must hold.
#[derive(Clone, Copy, Debug, PartialEq, Eq)]
pub struct Selection {
    /// The number of the first. It is 0 where nothing is asked.
    pub from: u32,
    /// The number of the last, which is shown too. It is 4,294,967,295, which no event has, where
    /// nothing is asked.
    pub to: u32,
    /// Their processor.
    pub cpu: Option<u16>,
    /// A canonical linear address: the page of 4 KB that has it is what they have to do with.
    pub page: Option<u64>,
    /// Whether with a page the loads of CR3 and CR4 of its processors are shown too.
    pub loads: bool,
    /// The physical address of the word that they write, or in which they set flags.
    pub word: Option<u64>,
}
