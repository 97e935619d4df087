use armcaps_bits::Span;
use armcaps_enc::SysReg;
use armcaps_rule::Rule;

/// A field of a tracked register: what the table says of it.
///
/// Source: Arm ARM DDI 0487 for the place of each field; which fields are listed, and their rules, after Linux,
/// arch/arm64/kernel/cpufeature.c, `ftr_id_aa64pfr0` and the tables beside it.
#[derive(Clone, Copy)]
pub struct FieldRow {
    /// The register that has the field.
    pub reg: SysReg,
    /// The field's name in texts, in lower case.
    pub name: &'static str,
    /// The field's place in the register's word.
    pub span: Span,
    /// How the values of unequal cores become one.
    pub rule: Rule,
    /// The value that is safe to assume on any core.
    pub safe: i64,
    /// Whether programs of users see the field.
    pub visible: bool,
    /// Whether it is reported where cores differ in the field.
    pub strict: bool,
}
