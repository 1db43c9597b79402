//! The table of commands, row by row.
use crate::asserts::expect_same;
use jdwp_layout::{CommandRow, Entry, Field, Item, Layout, layout_of};
use std::alloc::Global;
use std::process::Abort;

/// The commands by rising numbers, a line each: the set and the command, its names, and what its request and its reply
/// carry. A row with `*` is starred, and `-` is no data. B is a byte, Z a boolean, I an int, J a long, S a string, O an
/// object id, R a reference type id, M a method id, F a field id, Fr a frame id, Loc a location, V a value, TO a tagged
/// object id, and `n[..]` a list.
const ROWS: &str = "1 1 VirtualMachine.Version - -> S I I S S
1 2 VirtualMachine.ClassesBySignature S -> n[B R I]
1 3 VirtualMachine.AllClasses - -> n[B R S I]
1 4 VirtualMachine.AllThreads - -> n[O]
1 5 VirtualMachine.TopLevelThreadGroups - -> n[O]
1 6 VirtualMachine.Dispose - -> -
1 7 VirtualMachine.IDSizes - -> I I I I I
1 8 VirtualMachine.Suspend - -> -
1 9 VirtualMachine.Resume - -> -
1 10 VirtualMachine.Exit I -> -
1 11 VirtualMachine.CreateString* S -> O
1 12 VirtualMachine.Capabilities - -> Z Z Z Z Z Z Z
1 13 VirtualMachine.ClassPaths raw
1 14 VirtualMachine.DisposeObjects n[O I] -> -
1 15 VirtualMachine.HoldEvents - -> -
1 16 VirtualMachine.ReleaseEvents - -> -
1 17 VirtualMachine.CapabilitiesNew - -> Z Z Z Z Z Z Z Z Z Z Z Z Z Z Z Z \
     Z Z Z Z Z Z Z Z Z Z Z Z Z Z Z Z
1 18 VirtualMachine.RedefineClasses raw
1 19 VirtualMachine.SetDefaultStratum* S -> -
1 20 VirtualMachine.AllClassesWithGeneric - -> n[B R S S I]
1 21 VirtualMachine.InstanceCounts* n[R] -> n[J]
1 22 VirtualMachine.AllModules - -> n[O]
2 1 ReferenceType.Signature R -> S
2 2 ReferenceType.ClassLoader R -> O
2 3 ReferenceType.Modifiers R -> I
2 4 ReferenceType.Fields R -> n[F S S I]
2 5 ReferenceType.Methods R -> n[M S S I]
2 6 ReferenceType.GetValues R n[F] -> n[V]
2 7 ReferenceType.SourceFile R -> S
2 8 ReferenceType.NestedTypes* R -> n[B R]
2 9 ReferenceType.Status R -> I
2 10 ReferenceType.Interfaces R -> n[R]
2 11 ReferenceType.ClassObject* R -> O
2 12 ReferenceType.SourceDebugExtension* R -> S
2 13 ReferenceType.SignatureWithGeneric R -> S S
2 14 ReferenceType.FieldsWithGeneric R -> n[F S S S I]
2 15 ReferenceType.MethodsWithGeneric R -> n[M S S S I]
2 16 ReferenceType.Instances* R I -> n[TO]
2 17 ReferenceType.ClassFileVersion* R -> I I
2 18 ReferenceType.ConstantPool* R -> I n[B]
2 19 ReferenceType.Module R -> O
3 1 ClassType.Superclass R -> R
3 2 ClassType.SetValues raw
3 3 ClassType.InvokeMethod raw
3 4 ClassType.NewInstance raw
4 1 ArrayType.NewInstance raw
5 1 InterfaceType.InvokeMethod raw
6 1 Method.LineTable R M -> J J n[J I]
6 2 Method.VariableTable R M -> I n[J S S I I]
6 3 Method.Bytecodes* R M -> n[B]
6 4 Method.IsObsolete R M -> Z
6 5 Method.VariableTableWithGeneric R M -> I n[J S S S I I]
9 1 ObjectReference.ReferenceType O -> B R
9 2 ObjectReference.GetValues O n[F] -> n[V]
9 3 ObjectReference.SetValues raw
9 5 ObjectReference.MonitorInfo* O -> O I n[O]
9 6 ObjectReference.InvokeMethod raw
9 7 ObjectReference.DisableCollection O -> -
9 8 ObjectReference.EnableCollection O -> -
9 9 ObjectReference.IsCollected O -> Z
9 10 ObjectReference.ReferringObjects* O I -> n[TO]
10 1 StringReference.Value O -> S
11 1 ThreadReference.Name O -> S
11 2 ThreadReference.Suspend O -> -
11 3 ThreadReference.Resume O -> -
11 4 ThreadReference.Status O -> I I
11 5 ThreadReference.ThreadGroup O -> O
11 6 ThreadReference.Frames O I I -> n[Fr Loc]
11 7 ThreadReference.FrameCount O -> I
11 8 ThreadReference.OwnedMonitors* O -> n[TO]
11 9 ThreadReference.CurrentContendedMonitor* O -> TO
11 10 ThreadReference.Stop* O O -> -
11 11 ThreadReference.Interrupt* O -> -
11 12 ThreadReference.SuspendCount O -> I
11 13 ThreadReference.OwnedMonitorsStackDepthInfo* O -> n[TO I]
11 14 ThreadReference.ForceEarlyReturn* O V -> -
12 1 ThreadGroupReference.Name O -> S
12 2 ThreadGroupReference.Parent O -> O
12 3 ThreadGroupReference.Children O -> n[O] n[O]
13 1 ArrayReference.Length O -> I
13 2 ArrayReference.GetValues O I I -> region
13 3 ArrayReference.SetValues raw
14 1 ClassLoaderReference.VisibleClasses* O -> n[B R]
15 1 EventRequest.Set B B n[modifier] -> I
15 2 EventRequest.Clear B I -> -
15 3 EventRequest.ClearAllBreakpoints - -> -
16 1 StackFrame.GetValues O Fr n[I B] -> n[V]
16 2 StackFrame.SetValues O Fr n[I V] -> -
16 3 StackFrame.ThisObject O Fr -> TO
16 4 StackFrame.PopFrames* O Fr -> -
17 1 ClassObjectReference.ReflectedType* O -> B R
18 1 ModuleReference.Name O -> S
18 2 ModuleReference.ClassLoader O -> O
64 100 Event.Composite B n[event] -> -";

/// The letters of a field in the table above.
fn field_letters(field: Field) -> &'static str {
    match field {
        Field::Byte => "B",
        Field::Boolean => "Z",
        Field::Int => "I",
        Field::Long => "J",
        Field::String => "S",
        Field::ObjectId => "O",
        Field::ReferenceTypeId => "R",
        Field::MethodId => "M",
        Field::FieldId => "F",
        Field::FrameId => "Fr",
        Field::Location => "Loc",
        Field::Value => "V",
        Field::TaggedId => "TO",
    }
}

/// Adds a list of entries in the form of the table above.
fn push_entry(rt: &impl Abort, entry: Entry, line: &mut String) {
    match entry {
        Entry::Modifier => push(rt, "n[modifier]", line),
        Entry::Event => push(rt, "n[event]", line),
        Entry::Fields(fields) => push_fields(rt, fields, line),
    }
}

/// Adds a list of entries of these fields.
fn push_fields(rt: &impl Abort, fields: &[Field], line: &mut String) {
    push(rt, "n[", line);
    for (place, field) in fields.iter().enumerate() {
        if place > 0 {
            push(rt, " ", line);
        }
        push(rt, field_letters(*field), line);
    }
    push(rt, "]", line);
}

/// Adds the text.
fn push(rt: &impl Abort, text: &str, line: &mut String) {
    line.push_str(text).expect(rt, "memory");
}

/// Adds what a request or a reply carries.
fn push_layout(rt: &impl Abort, layout: &Layout, line: &mut String) {
    if layout.items.is_empty() {
        push(rt, " -", line);
    }
    for item in layout.items {
        push(rt, " ", line);
        match *item {
            Item::One(field) => push(rt, field_letters(field), line),
            Item::Many(entry) => push_entry(rt, entry, line),
            Item::Region => push(rt, "region", line),
        }
    }
}

/// The command's row in the form of the table above.
fn line_of(rt: &impl Abort, alloc: Global, set: u8, command: u8, row: &CommandRow) -> String {
    let star = if row.starred { "*" } else { "" };
    let (set_name, name) = (row.set_name, row.name);
    let line = format!(in alloc; "{set} {command} {set_name}.{name}{star}");
    let mut line = line.expect(rt, "memory");
    push_layouts(rt, row, &mut line);
    line
}

/// Adds what the command and its reply carry.
fn push_layouts(rt: &impl Abort, row: &CommandRow, line: &mut String) {
    match row.layouts {
        None => push(rt, " raw", line),
        Some(layouts) => {
            push_layout(rt, &layouts.request, line);
            push(rt, " ->", line);
            push_layout(rt, &layouts.reply, line);
        }
    }
}

/// The command's line, if it has a row.
fn found(rt: &impl Abort, alloc: Global, set: u8, command: u8) -> Option<String> {
    match layout_of(set, command) {
        Some(row) => Some(line_of(rt, alloc, set, command, row)),
        None => None,
    }
}

/// A command without a row has no line; the lines of the others are those of the table.
#[test]
fn every_row(rt: HostRuntime) {
    let mut rows = ROWS.lines();
    for set in 0..=255u8 {
        for command in 0..=255u8 {
            if let Some(line) = found(&rt, rt.alloc(), set, command) {
                expect_same(&rt, &Some(line.as_str()), &rows.next());
            }
        }
    }
    expect_same(&rt, &rows.next(), &None);
}

/// How many rows there are, how many of them are starred, how many are raw, how many are a target's commands, and how many are neither.
fn counts() -> (u32, u32, u32, u32, u32) {
    let (mut rows, mut starred, mut raw, mut of_target) = (0u32, 0u32, 0u32, 0u32);
    let mut others = 0u32;
    for set in 0..=255u8 {
        for command in 0..=255u8 {
            if let Some(row) = layout_of(set, command) {
                rows = rows.saturating_add(1);
                starred = starred.saturating_add(u32::from(row.starred));
                raw = raw.saturating_add(u32::from(row.layouts.is_none()));
                of_target = of_target.saturating_add(u32::from(set >= 64));
                let is_other = !row.starred && row.layouts.is_some() && set < 64;
                others = others.saturating_add(u32::from(is_other));
            }
        }
    }
    (rows, starred, raw, of_target, others)
}

#[test]
fn rows_are_counted(rt: HostRuntime) {
    expect_same(&rt, &counts(), &(94, 21, 10, 1, 62));
}
