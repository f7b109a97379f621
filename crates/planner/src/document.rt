//! The documents of a call.

ghost use Rattle.std.specs.Prelude.{◌≡◌};
ghost use Rattle.planner.specs.code.Document.{document_word};

#[derive(Clone, Copy, PartialEq, Eq)]
pub enum Document {
    Request,
    Workflow,
    Sites,
    Replicas,
    Transformations,
}

impl Document {
    /// Its word in a line.
    pub fn word(self) -> &'static str
        ensures { result.now ≡ document_word self }
    {
        match self {
            Document::Request => "request",
            Document::Workflow => "workflow",
            Document::Sites => "sites",
            Document::Replicas => "replicas",
            Document::Transformations => "transformations",
        }
    }
}
