//! What a Datadog agent uses to add tags to a metric: the external data of the process and the cardinality.

/// Which tags of a container a Datadog agent adds to a metric. Tags of more values make more series, which a server
/// stores.
#[derive(Clone, Copy, Debug, PartialEq, Eq, Hash)]
pub enum Cardinality {
    /// `none`: the agent adds no tags.
    NoTags,
    /// `low`: tags of few values, such as the name of an image.
    Low,
    /// `orchestrator`: also those of a pod or a task.
    Orchestrator,
    /// `high`: also those of a single container.
    High,
}

impl Cardinality {
    ghost use Rattle.std.specs.Prelude.{◌≡◌, IfNone, IfSome};
    ghost use Rattle.cadence_text.specs.Line.{cardinality_text};

    /// Returns the text of the cardinality, as a line has it.
    pub fn text(self) -> &'static str
        ensures { result.now ≡ cardinality_text self }
    {
        match self {
            Cardinality::NoTags => "none",
            Cardinality::Low => "low",
            Cardinality::Orchestrator => "orchestrator",
            Cardinality::High => "high",
        }
    }

    /// Returns the cardinality that has this text, or `None` if none has it.
    pub fn from_text(text: &str) -> Option<Cardinality>
        ensures found { IfSome result (λ kind. cardinality_text kind ≡ text.now) }
        ensures none { IfNone result
            ((kind : Cardinality) → cardinality_text kind ≡ text.now → ⊥) }
    {
        match text {
            "none" => Some(Cardinality::NoTags),
            "low" => Some(Cardinality::Low),
            "orchestrator" => Some(Cardinality::Orchestrator),
            "high" => Some(Cardinality::High),
            _ => None,
        }
    }
}

/// What a Datadog agent uses to add tags to a metric. Both fields are DogStatsD's.
#[derive(Clone, Copy, Debug)]
pub struct Enrichment<'a> {
    /// Which container and pod the process is, as the variable `DD_EXTERNAL_ENV` says, such as `cn-web,pu-4a`. Neither
    /// escaped nor checked: if it has a bar or a newline in it, a server reads the line differently.
    pub external: Option<&'a str>,
    /// Which tags the agent adds.
    pub cardinality: Option<Cardinality>,
}
