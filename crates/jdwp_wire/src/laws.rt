//! Laws: each function says what holds, in its contract, and does nothing; to call it is to cite it.
ghost use Rattle.std.specs.Prelude.{◌≡◌, ℕ, ◌+◌, ◌^◌, ◌<◌, ◌++◌, List, [], ◌∷◌, length, take, Bool, true, false, Ok, Err};
ghost use Rattle.jdwp_wire.specs.declared.data_fault.DataFault.{DataFault};
ghost use Rattle.jdwp_wire.specs.declared.packet.Header.{Header};
ghost use Rattle.jdwp_wire.specs.Widths.{Widths};
ghost use Rattle.jdwp_wire.specs.Bytes.{IsBytes};
ghost use Rattle.jdwp_wire.specs.Frames.{packet_bytes, IsPacket};
ghost use Rattle.jdwp_wire.specs.Handshake.{handshake_bytes};
ghost use Rattle.jdwp_wire.specs.Streams.{Message, Handshake, Packet, Whole, More, stream, IsSendable, next_message, is_packet, front_of_cut};
ghost use Rattle.jdwp_wire.specs.ErrorCodes as codes;

use crate::error_code::ErrorCode;
use crate::wire::Wire;
use circular_buffer::HeapCircularBuffer;

/// What is encoded, and so what `put` writes, is read again, whatever follows.
pub fn reads_what_is_encoded<T: Wire>()
    ensures { (w : Widths) (whole : ℕ) (x : T.Meaning) (code rest : List ℕ)
        → T.encodes w x code → T.decoded w whole (code ++ rest) ≡ Ok (x, rest) }
{}

/// What is read is encoded in front.
pub fn reads_only_encoded<T: Wire>()
    ensures { (w : Widths) (whole : ℕ) (bytes : List ℕ) (x : T.Meaning) (rest : List ℕ)
        → IsBytes bytes → T.decoded w whole bytes ≡ Ok (x, rest)
        → (code : List ℕ) × T.encodes w x code × (bytes ≡ code ++ rest) }
{}

/// A fault is answered exactly where it is the first from the left.
pub fn answers_first_fault<T: Wire>()
    ensures blamed { (w : Widths) (whole : ℕ) (bytes : List ℕ) (f : DataFault)
        → IsBytes bytes → T.decoded w whole bytes ≡ Err f → T.faults w whole bytes f }
    ensures judged { (w : Widths) (whole : ℕ) (bytes : List ℕ) (f : DataFault)
        → T.faults w whole bytes f → T.decoded w whole bytes ≡ Err f }
{}

/// No encoding begins another: bytes begin with at most one value, and with one encoding of it.
pub fn begins_with_one_value<T: Wire>()
    ensures { (w : Widths) (x y : T.Meaning) (code other rest more : List ℕ)
        → T.encodes w x code → T.encodes w y other
        → code ++ rest ≡ other ++ more → (x ≡ y) × (code ≡ other) × (rest ≡ more) }
{}

/// Bytes that begin with a fault begin with no value, and with no other fault.
pub fn begins_with_one_fault<T: Wire>()
    ensures value { (w : Widths) (whole : ℕ) (f : DataFault) (x : T.Meaning) (code rest : List ℕ)
        → T.faults w whole (code ++ rest) f → T.encodes w x code → ⊥ }
    ensures fault { (w : Widths) (whole : ℕ) (bytes : List ℕ) (f g : DataFault)
        → T.faults w whole bytes f → T.faults w whole bytes g → f ≡ g }
{}

/// A message is found whole at the front of bytes that begin with it, whatever follows it, within any limit that fits the length field.
pub fn finds_whole_messages()
    ensures handshake { (limit : ℕ) (rest : List ℕ)
        → next_message limit false (handshake_bytes ++ rest)
        ≡ Whole Handshake (length handshake_bytes) }
    ensures packet { (limit : ℕ) (header : Header) (body rest : List ℕ) → limit < 2 ^ 32
        → IsPacket limit header body → next_message limit true (packet_bytes header body ++ rest)
        ≡ Whole (Packet header body) header.length }
    ensures size { (header : Header) (body : List ℕ) → length (packet_bytes header body)
        ≡ 11 + length body }
{}

/// More bytes are called for at the front of bytes that have less than a whole message.
pub fn calls_for_more()
    ensures handshake { (limit n : ℕ) (rest : List ℕ) → n < length handshake_bytes
        → next_message limit false (take n (handshake_bytes ++ rest)) ≡ More }
    ensures packet { (limit n : ℕ) (header : Header) (body rest : List ℕ) → limit < 2 ^ 32
        → IsPacket limit header body → n < header.length
        → next_message limit true (take n (packet_bytes header body ++ rest)) ≡ More }
    ensures nothing { (limit : ℕ) (after_handshake : Bool)
        → next_message limit after_handshake [] ≡ More }
{}

/// At the front of a stream of messages that is cut anywhere the first message is found, where the cut has all of it, and else more bytes are
/// called for.
pub fn finds_first_message()
    ensures { (limit n : ℕ) (message : Message) (messages : List Message) → limit < 2 ^ 32
        → IsSendable limit message
        → next_message limit (is_packet message) (take n (stream (message ∷ messages)))
        ≡ front_of_cut n message }
{}

/// The constants are the specification's codes.
pub fn names_error_codes()
    ensures none { ErrorCode.NONE ≡ codes.NONE }
    ensures invalid_thread { ErrorCode.INVALID_THREAD ≡ codes.INVALID_THREAD }
    ensures invalid_thread_group { ErrorCode.INVALID_THREAD_GROUP ≡ codes.INVALID_THREAD_GROUP }
    ensures thread_not_suspended { ErrorCode.THREAD_NOT_SUSPENDED ≡ codes.THREAD_NOT_SUSPENDED }
    ensures invalid_object { ErrorCode.INVALID_OBJECT ≡ codes.INVALID_OBJECT }
    ensures invalid_class { ErrorCode.INVALID_CLASS ≡ codes.INVALID_CLASS }
    ensures class_not_prepared { ErrorCode.CLASS_NOT_PREPARED ≡ codes.CLASS_NOT_PREPARED }
    ensures invalid_methodid { ErrorCode.INVALID_METHODID ≡ codes.INVALID_METHODID }
    ensures invalid_location { ErrorCode.INVALID_LOCATION ≡ codes.INVALID_LOCATION }
    ensures invalid_fieldid { ErrorCode.INVALID_FIELDID ≡ codes.INVALID_FIELDID }
    ensures invalid_frameid { ErrorCode.INVALID_FRAMEID ≡ codes.INVALID_FRAMEID }
    ensures type_mismatch { ErrorCode.TYPE_MISMATCH ≡ codes.TYPE_MISMATCH }
    ensures invalid_slot { ErrorCode.INVALID_SLOT ≡ codes.INVALID_SLOT }
    ensures invalid_module { ErrorCode.INVALID_MODULE ≡ codes.INVALID_MODULE }
    ensures not_implemented { ErrorCode.NOT_IMPLEMENTED ≡ codes.NOT_IMPLEMENTED }
    ensures absent_information { ErrorCode.ABSENT_INFORMATION ≡ codes.ABSENT_INFORMATION }
    ensures invalid_event_type { ErrorCode.INVALID_EVENT_TYPE ≡ codes.INVALID_EVENT_TYPE }
    ensures illegal_argument { ErrorCode.ILLEGAL_ARGUMENT ≡ codes.ILLEGAL_ARGUMENT }
    ensures internal { ErrorCode.INTERNAL ≡ codes.INTERNAL }
    ensures invalid_index { ErrorCode.INVALID_INDEX ≡ codes.INVALID_INDEX }
    ensures invalid_length { ErrorCode.INVALID_LENGTH ≡ codes.INVALID_LENGTH }
    ensures invalid_string { ErrorCode.INVALID_STRING ≡ codes.INVALID_STRING }
    ensures invalid_array { ErrorCode.INVALID_ARRAY ≡ codes.INVALID_ARRAY }
    ensures invalid_count { ErrorCode.INVALID_COUNT ≡ codes.INVALID_COUNT }
{}

/// The elements of a ring of bytes are bytes.
pub(crate) fn are_bytes(ring: &HeapCircularBuffer<u8>)
    ensures { IsBytes ring.now.items }
{
    let (first, second) = ring.as_slices();
    are_all_bytes(first, second);
}

pub(crate) fn are_all_bytes(_first: &[u8], _second: &[u8])
    ensures { IsBytes (_first.now ++ _second.now) }
{}
