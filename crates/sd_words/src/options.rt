//! The options. A later one is a variant, its word and an element of each list that it belongs to.
ghost use Rattle.std.specs.Prelude.{◌≡◌};
ghost use Rattle.sd_words.specs.Options.{is_flag, range_of, word_of};

/// An option. Where several have the same fault, the first in this order is named.
#[derive(Clone, Copy, Debug, PartialEq, Eq)]
pub enum OptionName {
    /// The DIMACS file of a formula in conjunctive normal form.
    Cnf,
    /// The file of a formula in disjunctive normal form.
    Dnf,
    /// The number of variables and the seed of a generated formula, as `COUNT:SEED`.
    Generate,
    /// The file of the vtree.
    Vtree,
    /// The shape of the vtree: `balanced`, `right` or `left`.
    Start,
    /// The file of the script.
    Script,
    /// The file that gets the vtree.
    OutVtree,
    /// The file that gets the diagram.
    OutSdd,
    /// How many rounds the search for a smaller diagram has.
    Minimise,
    /// After how many groups of the formula a round of the search follows.
    Every,
    /// How far a search may let the size grow, in percent.
    Slack,
    /// The largest total size.
    Limit,
    /// Into how many parts the formula is cut.
    Parts,
    /// How many workers do the parts or the starts.
    Workers,
    /// The flag of a run over three starts.
    Portfolio,
    /// The file of a circuit in the ASCII format of AIGER.
    Aag,
    /// The file of a diagram that is checked.
    Check,
}

/// All of them, in their order.
pub(crate) static ALL_OPTIONS: [OptionName; 17] = [
    OptionName::Cnf,
    OptionName::Dnf,
    OptionName::Generate,
    OptionName::Vtree,
    OptionName::Start,
    OptionName::Script,
    OptionName::OutVtree,
    OptionName::OutSdd,
    OptionName::Minimise,
    OptionName::Every,
    OptionName::Slack,
    OptionName::Limit,
    OptionName::Parts,
    OptionName::Workers,
    OptionName::Portfolio,
    OptionName::Aag,
    OptionName::Check,
];

/// Those that say what is read or made.
pub(crate) static INPUTS: [OptionName; 5] = [
    OptionName::Cnf,
    OptionName::Dnf,
    OptionName::Generate,
    OptionName::Aag,
    OptionName::Check,
];

/// Those whose value is the name of a file.
pub(crate) static FILES: [OptionName; 8] = [
    OptionName::Cnf,
    OptionName::Dnf,
    OptionName::Vtree,
    OptionName::Script,
    OptionName::OutVtree,
    OptionName::OutSdd,
    OptionName::Aag,
    OptionName::Check,
];

/// What a script stands in place of, in the order in which a fault names the first.
pub(crate) static REPLACED_BY_SCRIPT: [OptionName; 3] = [
    OptionName::OutVtree,
    OptionName::OutSdd,
    OptionName::Minimise,
];

/// What has no place beside `--parts`, in the order in which a fault names the first.
pub(crate) static REFUSED_BY_PARTS: [OptionName; 2] = [OptionName::Script, OptionName::Every];

/// What has no place beside `--portfolio`, in that order.
pub(crate) static REFUSED_BY_PORTFOLIO: [OptionName; 5] = [
    OptionName::Vtree,
    OptionName::Start,
    OptionName::Script,
    OptionName::Every,
    OptionName::Parts,
];

/// What has no place beside `--aag`, in that order.
pub(crate) static REFUSED_BY_AAG: [OptionName; 3] = [
    OptionName::Every,
    OptionName::Parts,
    OptionName::Portfolio,
];

/// What has no place beside `--check`, in that order: all others but `--vtree`.
pub(crate) static REFUSED_BY_CHECK: [OptionName; 15] = [
    OptionName::Cnf,
    OptionName::Dnf,
    OptionName::Generate,
    OptionName::Start,
    OptionName::Script,
    OptionName::OutVtree,
    OptionName::OutSdd,
    OptionName::Minimise,
    OptionName::Every,
    OptionName::Slack,
    OptionName::Limit,
    OptionName::Parts,
    OptionName::Workers,
    OptionName::Portfolio,
    OptionName::Aag,
];

/// In percent.
pub(crate) const DEFAULT_SLACK: u32 = 200;

pub(crate) const DEFAULT_LIMIT: u32 = 16_777_216;

pub(crate) const DEFAULT_WORKERS: u32 = 1;

impl OptionName {
    /// The option's word, without its two dashes, as `out-vtree`.
    pub fn word(self) -> &'static str
        ensures { result.now ≡ word_of self }
    {
        match self {
            OptionName::Cnf => "cnf",
            OptionName::Dnf => "dnf",
            OptionName::Generate => "generate",
            OptionName::Vtree => "vtree",
            OptionName::Start => "start",
            OptionName::Script => "script",
            OptionName::OutVtree => "out-vtree",
            OptionName::OutSdd => "out-sdd",
            OptionName::Minimise => "minimise",
            OptionName::Every => "every",
            OptionName::Slack => "slack",
            OptionName::Limit => "limit",
            OptionName::Parts => "parts",
            OptionName::Workers => "workers",
            OptionName::Portfolio => "portfolio",
            OptionName::Aag => "aag",
            OptionName::Check => "check",
        }
    }

    /// It takes no value.
    pub(crate) fn is_flag(self) -> bool
        ensures { result ≡ is_flag (word_of self) }
    {
        matches!(self, OptionName::Portfolio)
    }

    /// The least and the largest number, of an option whose value is one number.
    pub(crate) fn range(self) -> Option<(u32, u32)>
        ensures { result ≡ range_of (word_of self) }
    {
        match self {
            OptionName::Minimise => Some((1, 100)),
            OptionName::Every => Some((1, 1_000_000)),
            OptionName::Slack => Some((100, 1_000)),
            OptionName::Limit => Some((1, 268_435_456)),
            OptionName::Parts => Some((1, 64)),
            OptionName::Workers => Some((1, 16)),
            _ => None,
        }
    }
}
