/// What a callback makes of a site's words (Linux has a function for each: arch/arm64/include/asm/alternative.h,
/// `alternative_cb_t`).
#[derive(Clone, Copy, Debug, PartialEq, Eq)]
pub enum CallbackKind {
    /// NOP in each word (Linux, `alt_cb_patch_nops`).
    Nops,
    /// Four words that load CTR_EL0 as the system has it into the register of the first (Linux,
    /// `kvm_compute_final_ctr_el0`).
    FinalCtr,
    /// The call of the firmware (Linux, `smccc_patch_fw_mitigation_conduit`).
    Conduit,
    /// The words as they are.
    Keep,
}
