//! The operator's side of a program.
ghost use Rattle.std.specs.Prelude.{◌≡◌};

use crate::{Sink, Source};

/// The types of a console's two sides.
pub trait Sides {
    type Source: Source;

    type Sink: Sink;
}

impl<I: Source, W: Sink> Sides for (I, W) {
    type Source = I;

    type Sink = W;
}

/// The streams of a program next to its connections and files: one session, or the operator's commands and their answers.
#[derive(Drop)]
pub struct Console<T: Sides> {
    pub source: T::Source,
    pub sink: T::Sink,
}

impl<I: Source, W: Sink> Console<(I, W)> {
    pub fn new(source: I, sink: W) -> Console<(I, W)>
        ensures source { result.source ≡ source }
        ensures sink { result.sink ≡ sink }
    {
        Console { source, sink }
    }
}
