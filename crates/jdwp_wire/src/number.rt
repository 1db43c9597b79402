//! Bytes, booleans, and unsigned numbers of 1 to 8 bytes, the highest byte first (JDWP specification, "Data Types").
ghost use Rattle.std.specs.Prelude.{◌≡◌, ◌≤◌, ◌<◌, ◌^◌, ◌++◌, ◌↔◌, IsTrue, length, IfOk, IfErr, ◌+◌, vec_len, vec_capacity};
ghost use Rattle.std.specs.Result.{IsErrOf};
ghost use Rattle.byteorder.specs.Endian.{big_bytes, big_number};
ghost use Rattle.jdwp_wire.specs.declared.data_fault.DataFault.TheVariants.{NoMemory};
ghost use Rattle.jdwp_wire.specs.Reading.{Gives, passed};
ghost use Rattle.jdwp_wire.specs.Writing.{Appends, Leaves, HasRoom};
ghost use Rattle.jdwp_wire.specs.Basic.{byte_at, bool_at};
ghost use Rattle.jdwp_wire.specs.Widths.{IsWidth};
ghost use Rattle.jdwp_wire.specs.Numbers.{EncodesNumber, EncodesCount, number_at, greatest_int, count_at, id_refusal, count_refusal};

use crate::data_fault::DataFault;
use crate::id_sizes::Width;
use byteorder::{BigEndian, ByteOrder};

/// The greatest int, and so the greatest length or count.
pub const GREATEST_INT: u32 = 2_147_483_647;

/// The byte at the front of the rest of a slice of `whole` bytes, and what follows it.
///
/// # Errors
/// `Short(whole)` where no byte is left.
pub fn take_byte(rest: &[u8], whole: usize) -> Result<(u8, &[u8]), DataFault>
    ensures value { Gives (λ x. (x.0, x.1.now)) result (byte_at whole rest.now) }
    ensures shorter { IfOk result (λ x. length x.1.now ≤ length rest.now) }
    ensures memory { IsErrOf result NoMemory → ⊥ }
{
    match rest {
        [] => Err(DataFault::Short(whole)),
        [byte, after @ ..] => Ok((*byte, after)),
    }
}

/// The boolean at the front of the rest of a slice of `whole` bytes, and what follows it: 0 is false, and any other byte
/// is true.
///
/// # Errors
/// `Short(whole)` where no byte is left.
pub fn take_bool(rest: &[u8], whole: usize) -> Result<(bool, &[u8]), DataFault>
    ensures value { Gives (λ x. (x.0, x.1.now)) result (bool_at whole rest.now) }
    ensures shorter { IfOk result (λ x. length x.1.now ≤ length rest.now) }
    ensures memory { IsErrOf result NoMemory → ⊥ }
{
    match rest {
        [] => Err(DataFault::Short(whole)),
        [0, after @ ..] => Ok((false, after)),
        [_, after @ ..] => Ok((true, after)),
    }
}

/// What follows `count` bytes at the front of the rest of a slice of `whole` bytes.
///
/// # Errors
/// `Short(whole)` where fewer than `count` bytes are left.
pub fn pass_bytes(rest: &[u8], whole: usize, count: usize) -> Result<&[u8], DataFault>
    ensures value { Gives (λ after. after.now) result (passed (number_at count whole rest.now)) }
    ensures memory { IsErrOf result NoMemory → ⊥ }
{
    if rest.len() < count {
        return Err(DataFault::Short(whole));
    }
    Ok(&rest[count..])
}

/// The number of `width` bytes at the front of the rest of a slice of `whole` bytes, and what follows it.
///
/// # Errors
/// `Short(whole)` where fewer than `width` bytes are left.
pub fn take_number(rest: &[u8], whole: usize, width: Width) -> Result<(u64, &[u8]), DataFault>
    ensures value { Gives (λ x. (x.0, x.1.now)) result (number_at width whole rest.now) }
    ensures fits { IfOk result (λ x. x.0 < 256 ^ width) }
    ensures shorter { IfOk result (λ x. length x.1.now ≤ length rest.now) }
    ensures memory { IsErrOf result NoMemory → ⊥ }
{
    let count = width.bytes();
    if rest.len() < count {
        return Err(DataFault::Short(whole));
    }
    let number = read_number(rest, count);
    Ok((number, &rest[count..]))
}

/// The number of `count` bytes in front of these. Eight, as most ids have, are read at once.
fn read_number(bytes: &[u8], count: usize) -> u64
    requires width { IsWidth count }
    requires within { count ≤ length bytes.now }
    ensures { result ≡ big_number count bytes.now }
{
    if count == 8 {
        BigEndian::read_u64(bytes)
    } else {
        BigEndian::read_uint(bytes, count)
    }
}

/// The count or length at the front of the rest of a slice of `whole` bytes, and what follows it.
///
/// # Errors
/// `Short(whole)` where fewer than 4 bytes are left, and `NegativeCount` where they are there and the count is
/// above 2,147,483,647.
pub fn take_count(rest: &[u8], whole: usize) -> Result<(usize, &[u8]), DataFault>
    ensures value { Gives (λ x. (x.0, x.1.now)) result (count_at whole rest.now) }
    ensures within { IfOk result (λ x. x.0 ≤ greatest_int) }
    ensures shorter { IfOk result (λ x. length x.1.now ≤ length rest.now) }
    ensures memory { IsErrOf result NoMemory → ⊥ }
{
    let (count, rest) = take_number(rest, whole, Width::INT)?;
    if count > GREATEST_INT as u64 {
        return Err(DataFault::NegativeCount);
    }
    Ok((count as usize, rest))
}

/// Appends a number in `width` bytes.
///
/// # Errors
/// `IdTooWide` where so many bytes don't hold it, and `NoMemory` where the vector was to grow and an allocation was
/// refused. The vector's bytes are then as they were.
pub fn put_number(number: u64, width: Width, output: &mut Vec<u8>) -> Result<(), DataFault>
    ensures ok { Appends (EncodesNumber width) (big_bytes width) number
        result output.old output.new }
    ensures err { Leaves (id_refusal width number) result output.old output.new }
    ensures room { HasRoom (big_bytes width number) output.old → IsErrOf result NoMemory → ⊥ }
    ensures capacity { vec_capacity output.old ≤ vec_capacity output.new }
{
    let length = width.bytes();
    if !fits(number, length) {
        return Err(DataFault::IdTooWide);
    }
    if length == 8 {
        return put_long(number, output);
    }
    let mut bytes = [0; 8];
    BigEndian::write_uint(&mut bytes, number, length);
    output.extend_from_slice(&bytes[..length])?;
    Ok(())
}

/// Appends a count or a length, 4 bytes.
///
/// # Errors
/// `BadSize` where it is above 2,147,483,647, and `NoMemory` where the vector was to grow and an allocation was refused.
/// The vector's bytes are then as they were.
pub fn put_count(count: usize, output: &mut Vec<u8>) -> Result<(), DataFault>
    ensures ok { Appends EncodesCount (big_bytes 4) count result output.old output.new }
    ensures err { Leaves (count_refusal count) result output.old output.new }
    ensures room { vec_len output.old + 4 ≤ vec_capacity output.old → IsErrOf result NoMemory → ⊥ }
    ensures capacity { vec_capacity output.old ≤ vec_capacity output.new }
{
    if count > GREATEST_INT as usize {
        return Err(DataFault::BadSize);
    }
    let mut bytes = [0; 4];
    BigEndian::write_u32(&mut bytes, count as u32);
    output.extend_from_slice(&bytes)?;
    Ok(())
}

/// Appends a number of 8 bytes.
///
/// # Errors
/// `NoMemory` where the vector was to grow and an allocation was refused. The vector's bytes are then as they were.
pub fn put_long(number: u64, output: &mut Vec<u8>) -> Result<(), DataFault>
    ensures ok { Appends (EncodesNumber 8) (big_bytes 8) number result output.old output.new }
    ensures err { IfErr result (λ e. (output.new.items ≡ output.old.items) × (e ≡ NoMemory)) }
    ensures room { vec_len output.old + 8 ≤ vec_capacity output.old → IsErrOf result NoMemory → ⊥ }
    ensures capacity { vec_capacity output.old ≤ vec_capacity output.new }
{
    let mut bytes = [0; 8];
    BigEndian::write_u64(&mut bytes, number);
    output.extend_from_slice(&bytes)?;
    Ok(())
}

/// Whether `width` bytes hold a number.
pub fn fits(number: u64, width: usize) -> bool
    ensures { IsTrue result ↔ (number < 256 ^ width) }
{
    match width {
        0 => number == 0,
        1 => number < 0x100,
        2 => number < 0x1_0000,
        3 => number < 0x100_0000,
        4 => number < 0x1_0000_0000,
        5 => number < 0x100_0000_0000,
        6 => number < 0x1_0000_0000_0000,
        7 => number < 0x100_0000_0000_0000,
        _ => true,
    }
}
