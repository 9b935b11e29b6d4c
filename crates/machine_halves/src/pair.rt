//! A trait that creates the two halves of a link, and takes them back.
ghost use Rattle.std.specs.Prelude.{◌≡◌, None, Some, IfOk};
ghost use Rattle.machine_halves.specs.Halves.{IsNewHalf, half_view, halves_of};

use crate::halves::{MapIn, MapOut, SharedMap};
use sftp_link::{LinkIn, LinkOut};
use sftp_map_server::MapServer;
use ssh_encoding::OutOfMemory;
use std::alloc::Global;
use std::marker::Model;
use std::sync::Wait;

/// A type that creates the two halves of a link to a server, and takes them back after use.
///
/// Example: `crates/example_threads/src/receipts.rt`.
pub trait Pair<R> {
    ghost use Rattle.std.specs.Prelude.{Option};
    ghost use Rattle.machine_halves.specs.Halves.{Halves};

    /// The half to which bytes are sent.
    type Out: LinkOut + Send + Drop;

    /// The half from which bytes come.
    type In: LinkIn + Send + Drop;

    // The views of the halves that were put back last.
    ghost last: { Self → Option Halves };

    /// Returns the two halves, on which no call was made. The record of the halves that were put back before is
    /// unchanged.
    ///
    /// # Errors
    ///
    /// `OutOfMemory` if an allocation fails; the record of the halves that were put back before is unchanged.
    fn split(
        &mut self,
        rt: &R,
        alloc: Global,
        server: MapServer,
    ) -> Result<(Self::Out, Self::In), OutOfMemory>
        ensures halves { IfOk result (λ halves. IsNewHalf (Self.Out.LinkState.state halves.0) × IsNewHalf (Self.In.LinkState.state halves.1)) }
        ensures kept { last self.new ≡ last self.old };

    /// Takes the halves back, and keeps their record.
    fn put_back(&mut self, out: Self::Out, input: Self::In)
        ensures { last self.new ≡ Some (halves_of (Self.Out.LinkState.state out) (Self.In.LinkState.state input)) };
}

/// The halves of the server in memory, which are kept once they are put back.
///
/// Used by the functions of this module.
#[derive(Drop)]
pub struct MapPair<R: Drop> {
    back: Option<(MapOut<R>, MapIn<R>)>,
}

impl<R: Drop> Model for MapPair<R> {
    ghost use Rattle.std.specs.Prelude.{Option};
    ghost use Rattle.std.specs.Option.{option_map};
    ghost use Rattle.machine_halves.specs.Halves.{Halves, half_view, halves_of};

    ghost Value = { Option Halves };

    ghost view = { λ p. option_map (λ b. halves_of (half_view b.0) (half_view b.1)) p.back };
}

impl<R: Drop> MapPair<R> {
    /// Creates it without halves that were put back.
    pub fn new() -> MapPair<R>
        ensures { result ≡ None }
    {
        MapPair { back: None }
    }
}

impl<R: Wait + Clone + Drop + Send + Sync> Pair<R> for MapPair<R> {
    type Out = MapOut<R>;

    type In = MapIn<R>;

    ghost last = { λ p. p };

    fn split(
        &mut self,
        rt: &R,
        alloc: Global,
        server: MapServer,
    ) -> Result<(MapOut<R>, MapIn<R>), OutOfMemory> {
        SharedMap::split(rt, alloc, server)
    }

    fn put_back(&mut self, out: MapOut<R>, input: MapIn<R>) {
        self.back = Some((out, input));
    }
}
