/// A group of lines of a report.
#[derive(Clone, Copy)]
pub enum Group {
    /// The format's name.
    Header,
    /// What became of each core.
    Cores,
    /// The system registers.
    Registers,
    /// The system registers as users see them.
    UserWords,
    /// The registers in which an admitted core differs from the boot core.
    Variations,
    /// What each override came to.
    Notes,
    /// The capabilities that are enabled.
    Capabilities,
    /// The hwcaps.
    Hwcaps,
    /// The vector lengths that programs are told of.
    VectorLengths,
    /// The end of the report.
    End,
}

impl Group {
    /// The groups in their order.
    pub const ALL: [Group; 10] = [
        Group::Header,
        Group::Cores,
        Group::Registers,
        Group::UserWords,
        Group::Variations,
        Group::Notes,
        Group::Capabilities,
        Group::Hwcaps,
        Group::VectorLengths,
        Group::End,
    ];
}
