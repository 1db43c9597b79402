//! Laws: each function says what holds, in its contract, and does nothing; to call it is to cite it.
ghost use Rattle.std.specs.Prelude.{◌≡◌, ◌↔◌, ℕ, List, ◌∷◌, ◌++◌, length, Some};
ghost use Rattle.jdwp_wire.specs.Bytes.{IsBytes};
ghost use Rattle.jdwp_wire.specs.Widths.{Widths};
ghost use Rattle.jdwp_layout.specs.CommandNumbers.{ID_SIZES};
ghost use Rattle.jdwp_layout.specs.Rows.{RowShapes};
ghost use Rattle.jdwp_show.specs.Data.{shapes_of, shapes_under, widths_in, widths_by};
ghost use Rattle.jdwp_show.specs.declared.capture_line.Sender.{Sender};
ghost use Rattle.jdwp_show.specs.Found.{Found, found, AreIn};
ghost use Rattle.jdwp_show.specs.Items.{Item, items_of, found_of, StandsIn};
ghost use Rattle.jdwp_show.specs.declared.command_number.CommandNumber.{CommandNumber};
ghost use Rattle.jdwp_show.specs.Lines.{Line, sent_by};
ghost use Rattle.jdwp_show.specs.MessageLines.{name_in, name_text};
ghost use Rattle.jdwp_show.specs.Rules.{waiting};
ghost use Rattle.jdwp_show.specs.Sessions.{widths_of};
ghost use Rattle.jdwp_show.specs.Tables.{row_under};
ghost use Rattle.jdwp_show.specs.declared.table.Table.{Table};
ghost use Rattle.jdwp_show.specs.Waiting.{Waits, TellsWidths};

/// What is found in the bytes of an end is the messages that they begin with, as many as are whole, and the frame fault that what follows
/// them shows, if it does. Nothing else is found in them.
pub fn finds_each_message()
    ensures found { (bytes : List ℕ) → IsBytes bytes → AreIn bytes (found bytes) }
    ensures only { (bytes : List ℕ) (things : List Found) → AreIn bytes things
        → things ≡ found bytes }
{}

/// The widths that a reply to VirtualMachine.IDSizes tells are the five ints that the layout of its row reads, each 1 to 8. Its first fault
/// is that of the layout, or another width.
pub fn tells_widths_by_layout()
    ensures { (widths : Widths) (shapes : RowShapes) (body : List ℕ) → shapes_of (record {
      set = ID_SIZES.set;
      number = ID_SIZES.number;
    }) ≡ Some shapes
        → widths_in body ≡ widths_by widths shapes.reply body }
{}

/// Data that the standard's table reads are read alike by each table, and a command has one name in all.
pub fn tables_agree()
    ensures layouts { (table : Table) (command : CommandNumber) (shapes : RowShapes)
        → shapes_of command ≡ Some shapes → shapes_under table command ≡ Some shapes }
    ensures names { (table : Table) (command : CommandNumber)
        → name_in (row_under table command.set command.number) command ≡ name_text command }
{}

/// The items of one end, in order, are what is found in all that it sent: no message is lost at the end of a line, and none is made up.
pub fn keeps_each_message()
    ensures { (capture : List Line) (sender : Sender) → found_of sender (items_of capture)
        ≡ found (sent_by sender capture) }
{}

/// A command waits under an id exactly where it stands among the items and none behind it speaks of its id.
pub fn waits_where_it_stands()
    ensures { (items : List Item) (id : ℕ) (command : CommandNumber)
        → (waiting items id ≡ Some command) ↔ Waits items id command }
{}

/// Widths of ids hold for items exactly where an item tells them, and no item before it tells any or, like itself, breaks a rule of frames,
/// ends or ids.
pub fn tells_widths_first()
    ensures { (items : List Item) (widths : Widths)
        → (widths_of items ≡ Some widths) ↔ TellsWidths items widths }
{}

/// Each item stands in its line: among what its end sent it comes behind those of its items that were told before it, it is whole in the
/// lines up to that one, and it was not whole before that line.
pub fn stands_in_its_line()
    ensures { (capture : List Line) (earlier later : List Item) (item : Item)
        → items_of capture ≡ earlier ++ item ∷ later
        → StandsIn capture item (length (found_of item.sender earlier)) }
{}
