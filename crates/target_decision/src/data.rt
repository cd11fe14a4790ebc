//! The data of a reply, and where their bytes come from.
ghost use Rattle.std.specs.Prelude.{◌≡◌, ◌<◌, ◌+◌, ◌^◌, length, slice_range};
ghost use Rattle.admin_queue.specs.Payload.{IsPart, payload_len};
ghost use Rattle.target_decision.specs.Data.{bytes_in, bytes_of, data_len, len_in};
ghost use Rattle.target_decision.specs.Decision.{data_of, payload_of};
ghost use Rattle.target_decision.specs.World.{world_in};

use crate::decision::{Decision, ReplyAnswer};
use crate::session::ConnectionState;
use crate::world::World;
use admin_queue::{AdminController, Payload};

/// What a reply returns of a controller.
#[derive(Clone, Copy)]
pub(crate) struct Data<'a> {
    world: &'a World<'a>,
    controller: AdminController<'a>,
    payload: Payload,
}

impl<'a> Data<'a> {
    /// What a decision on this connection returns: commands on admin queues alone return data.
    pub(crate) fn of(
        world: &'a World<'a>,
        v: &'a ConnectionState,
        decision: &Decision,
    ) -> Option<Data<'a>>
        ensures bytes { bytes_in result ≡ data_of (world_in world.now) v.now decision.now }
        ensures len { len_in result ≡ data_len (world_in world.now) v.now decision.now }
    {
        let payload = payload_of(decision)?;
        let controller = world.admin_controller_in(v)?;
        Some(Data {
            world,
            controller,
            payload,
        })
    }

    /// In bytes.
    pub(crate) fn len(&self) -> usize
        ensures value { result ≡ payload_len self.now.payload }
        ensures bound { result < 2 ^ 18 }
    {
        self.payload.len()
    }

    /// Writes the bytes from an offset on into room for a part of them.
    pub(crate) fn write_part(&self, offset: u32, out: &mut [u8])
        requires { IsPart self.now.payload offset (length out.old) }
        ensures part { out.new ≡ slice_range (bytes_of self.now) offset (offset + length out.old) }
        ensures len { length (bytes_of self.now) ≡ payload_len self.now.payload }
    {
        let world = self.world;
        self.payload
            .write_part(offset, world.pages, world.config, &self.controller, out);
    }
}

// What a decision returns of its controller.
fn payload_of(decision: &Decision) -> Option<Payload>
    ensures { result ≡ payload_of decision.now }
{
    match decision {
        Decision::Reply(reply) => match &reply.answer {
            ReplyAnswer::Given(given) => given.data,
            ReplyAnswer::Performed(_) => None,
        },
        Decision::Initialize(_)
        | Decision::Request(_)
        | Decision::Wait { .. }
        | Decision::Receive { .. }
        | Decision::Terminate(_)
        | Decision::Close => None,
    }
}

/// How many bytes of data a reply returns.
pub(crate) fn len_in(returned: &Option<Data<'_>>) -> usize
    ensures value { result ≡ len_in returned.now }
    ensures bound { result < 2 ^ 18 }
{
    match returned {
        Some(data) => data.len(),
        None => 0,
    }
}
