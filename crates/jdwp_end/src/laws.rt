//! Laws: each function says what holds, in its contract, and does nothing; to call it is to cite it.
ghost use Rattle.std.specs.Prelude.{◌≡◌, ℕ, ◌^◌, ◌<◌, List, [], ◌∷◌, take, false, ◌++◌};
ghost use Rattle.jdwp_wire.specs.declared.packet.Header.{Header};
ghost use Rattle.jdwp_wire.specs.Frames.{IsPacket};
ghost use Rattle.jdwp_wire.specs.Streams as streams;
ghost use Rattle.jdwp_wire.specs.Streams.{stream, front_of_cut};
ghost use Rattle.jdwp_end.specs.declared.phase.Phase.TheVariants as phase;
ghost use Rattle.jdwp_end.specs.Ends as ends;
ghost use Rattle.jdwp_end.specs.Ends.{front_of, is_paused};
ghost use Rattle.jdwp_wire.specs.Bytes.{IsBytes};

/// Where a stream of messages that is cut anywhere came to an end that is not paused, its first message is there to handle once all of it came,
/// and nothing before that.
pub fn finds_first_message()
    ensures handshake { (end : ends.End) (n : ℕ) (messages : List streams.Message)
        → end.phase ≡ phase.AwaitingHandshake → is_paused end ≡ false
        → end.limits.packet < 2 ^ 32
        → end.incoming ≡ take n (stream (streams.Handshake ∷ messages))
        → front_of end ≡ front_of_cut n streams.Handshake }
    ensures packet { (end : ends.End) (n : ℕ) (header : Header) (body : List ℕ)
        (messages : List streams.Message)
        → end.phase ≡ phase.Established → is_paused end ≡ false → end.limits.packet < 2 ^ 32
        → IsPacket end.limits.packet header body
        → end.incoming ≡ take n (stream (streams.Packet header body ∷ messages))
        → front_of end ≡ front_of_cut n (streams.Packet header body) }
    ensures nothing { (end : ends.End) → end.incoming ≡ [] → front_of end ≡ streams.More }
{}

/// The elements of two slices of bytes are bytes.
pub(crate) fn are_bytes(_first: &[u8], _second: &[u8])
    ensures { IsBytes (_first.now ++ _second.now) }
{}
