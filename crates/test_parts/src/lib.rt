//! What tests share: bytes from hex digits, the machine that most of them debug, the names of commands, and a process without memory.
#![tactic(auto)]

pub mod commands;
mod scarce;

use jdwp_wire::NoMemory;
pub use scarce::Scarce;
use std::alloc::Global;

/// A machine of two threads, of which the first calls a method, moves in it and returns, and the second has run out.
pub const MACHINE_A: &str = "{\"name\":\"A\",\"sizes\":[8,8,8,8,8],
\"groups\":[{\"id\":5,\"name\":\"main\",\"parent\":0}],
\"classes\":[{\"id\":10,\"tag\":1,\"signature\":\"LMain;\",\"modifiers\":1,
 \"super\":0,\"interfaces\":[],\"source\":\"Main.java\",\"fields\":[],
 \"methods\":[{\"id\":20,\"name\":\"run\",\"signature\":\"()V\",\"modifiers\":1,
  \"args\":0,\"last\":9,\"lines\":[[0,1],[3,2],[4,3]],\"slots\":[]}]}],
\"objects\":[],
\"threads\":[{\"id\":1,\"name\":\"main\",\"group\":5,\"steps\":[
 [\"call\",30,10,20,0,[]],[\"go\",3],[\"go\",4],[\"go\",3],[\"go\",4],
 [\"go\",3],[\"return\",[\"V\",0]]]},
 {\"id\":2,\"name\":\"work\",\"group\":5,\"steps\":[]}]}";

/// The same, where the method called has a slot.
pub const WITH_A_SLOT: &str = "{\"name\":\"A\",\"sizes\":[8,8,8,8,8],
\"groups\":[{\"id\":5,\"name\":\"main\",\"parent\":0}],
\"classes\":[{\"id\":10,\"tag\":1,\"signature\":\"LMain;\",\"modifiers\":1,
 \"super\":0,\"interfaces\":[],\"source\":\"Main.java\",\"fields\":[],
 \"methods\":[{\"id\":20,\"name\":\"run\",\"signature\":\"()V\",\"modifiers\":1,
  \"args\":0,\"last\":9,\"lines\":[[0,1],[3,2],[4,3]],\"slots\":[]}]}],
\"objects\":[],
\"threads\":[{\"id\":1,\"name\":\"main\",\"group\":5,\"steps\":[
 [\"call\",30,10,20,0,[[0,[\"I\",7]]]],[\"go\",3],[\"go\",4],[\"go\",3],[\"go\",4],
 [\"go\",3],[\"return\",[\"V\",0]]]},
 {\"id\":2,\"name\":\"work\",\"group\":5,\"steps\":[]}]}";

/// A machine whose thread 1 enters a method, throws an exception that is caught and one that is not, prepares a class, starts thread 2
/// and returns.
pub const ALL_KINDS: &str = "{\"name\":\"kinds\",\"sizes\":[8,8,8,8,8],
\"groups\":[{\"id\":5,\"name\":\"main\",\"parent\":0}],
\"classes\":[
 {\"id\":13,\"tag\":1,\"signature\":\"LBase;\",\"modifiers\":1,\"super\":0,\"interfaces\":[],\"source\":null,\"fields\":[],\"methods\":[]},
 {\"id\":10,\"tag\":1,\"signature\":\"Lapp/Main;\",\"modifiers\":1,\"super\":13,\"interfaces\":[],\"source\":null,\"fields\":[],
  \"methods\":[{\"id\":20,\"name\":\"run\",\"signature\":\"()I\",\"modifiers\":1,
   \"args\":0,\"last\":9,\"lines\":[[0,1],[3,2],[4,3]],\"slots\":[]}]},
 {\"id\":30,\"tag\":1,\"signature\":\"LFault;\",\"modifiers\":1,\"super\":0,\"interfaces\":[],\"source\":null,\"fields\":[],\"methods\":[]},
 {\"id\":31,\"tag\":1,\"signature\":\"LOops;\",\"modifiers\":1,\"super\":30,\"interfaces\":[],\"source\":null,\"fields\":[],\"methods\":[]},
 {\"id\":12,\"tag\":1,\"signature\":\"LLate;\",\"modifiers\":1,\"super\":0,\"interfaces\":[],\"source\":null,\"fields\":[],\"methods\":[]}],
\"objects\":[{\"id\":40,\"class\":31,\"fields\":[],\"text\":null,\"array\":null}],
\"threads\":[{\"id\":1,\"name\":\"main\",\"group\":5,\"steps\":[
 [\"call\",50,10,20,0,[]],[\"throw\",40,[10,20,4]],[\"throw\",40,null],
 [\"prepare\",12],[\"start\",2],[\"return\",[\"I\",5]]]},
 {\"id\":2,\"name\":\"work\",\"group\":5,\"steps\":[]}]}";

/// The bytes that hex digits spell, two a byte; any other character is for reading.
///
/// # Errors
/// `NoMemory` where an allocation was refused.
pub fn bytes(alloc: Global, hex: &str) -> Result<Vec<u8>, NoMemory> {
    let mut bytes = Vec::new(alloc);
    push_bytes(&mut bytes, hex)?;
    Ok(bytes)
}

/// Appends the bytes that hex digits spell, two a byte; any other character is for reading.
///
/// # Errors
/// `NoMemory` where an allocation was refused.
pub fn push_bytes(bytes: &mut Vec<u8>, hex: &str) -> Result<(), NoMemory> {
    let mut high: Option<u32> = None;
    for character in hex.chars() {
        let Some(digit) = character.to_digit(16) else {
            continue;
        };
        match high {
            None => high = Some(digit),
            Some(first) => {
                bytes.push((first.wrapping_mul(16).wrapping_add(digit) % 256) as u8)?;
                high = None;
            }
        }
    }
    Ok(())
}
