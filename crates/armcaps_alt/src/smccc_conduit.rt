/// How the kernel calls the firmware (Arm DEN 0028, "SMC Calling Convention").
#[derive(Clone, Copy, Debug, PartialEq, Eq)]
pub enum Conduit {
    /// There is none.
    None,
    /// By HVC.
    Hvc,
    /// By SMC.
    Smc,
}
