// Rows of the table, field items and places as the specification has them.

use aml_operators::{
    Class, Code, Naming, NumberSize, Op, Piece, Ruling, Spot, item_of_byte, item_pieces, naming_of,
    op_of_code, row_of, ruling_of,
};
use aml_tree::op_at;

/// Whether the opcode is the operator's, whose row has this class and as many letters.
fn has_row(opcode: u16, op: Op, class: Class, letters: usize) -> bool {
    let row = row_of(op);
    op_of_code(opcode) == Some(op) && row.class == class && row.letters.len() == letters
}

#[test]
fn rows(rt: HostRuntime) {
    let rows: &[(u16, Op, Class, usize)] = &[
        (0x00, Op::Zero, Class::Literal, 0),
        (0x0E, Op::QWordConst, Class::Literal, 1),
        (0x11, Op::Buffer, Class::Data, 3),
        (0x5B30, Op::Revision, Class::Revision, 0),
        (0x6E, Op::Arg6, Class::Variable, 0),
        (0x72, Op::Add, Class::Expression, 3),
        (0x78, Op::Divide, Class::Expression, 4),
        (0x88, Op::Index, Class::Reference, 3),
        (0x89, Op::Match, Class::Expression, 6),
        (0x5B31, Op::Debug, Class::Debug, 0),
        (0xA0, Op::If, Class::Statement, 3),
        (0xCC, Op::BreakPoint, Class::Statement, 0),
        (0x14, Op::Method, Class::Definition, 4),
        (0x5B13, Op::CreateField, Class::Definition, 4),
        (0x5B87, Op::BankField, Class::Definition, 6),
    ];
    for (opcode, op, class, letters) in rows {
        assert!(rt; has_row(*opcode, *op, *class, *letters), "{opcode}");
    }
}

/// The operator at a place and the place behind its opcode; a name, the end and a lone 5B have
/// none.
#[test]
fn operators_at_places(rt: HostRuntime) {
    let bytes: &[u8] = &[0x70, 0x5B, 0x30, 0x5C, 0x4D, 0xA1, 0x5B];
    let rows: &[(usize, Option<(Op, usize)>)] = &[
        (0, Some((Op::Store, 1))),
        (1, Some((Op::Revision, 3))),
        (2, None),
        (3, None),
        (4, None),
        (5, None),
        (6, None),
        (7, None),
    ];
    for (at, wanted) in rows {
        assert!(rt; op_at(bytes, *at) == *wanted, "{at}");
    }
}

/// Else, which only an If reads, and two that begin nothing.
#[test]
fn no_opcodes(rt: HostRuntime) {
    let opcodes: &[u16] = &[0xA1, 0x5B2A, 0x03];
    for opcode in opcodes {
        assert!(rt; op_of_code(*opcode).is_none(), "{opcode}");
    }
}

/// Whether the byte begins this item of a field list, which has as many pieces.
fn begins_item(byte: u8, item: Option<Op>, pieces: usize) -> bool {
    item_of_byte(byte) == item && item_pieces(item.unwrap_or(Op::Zero)).len() == pieces
}

#[test]
fn field_items(rt: HostRuntime) {
    let rows: &[(u8, Option<Op>, usize)] = &[
        (0x00, Some(Op::ReservedField), 1),
        (0x01, Some(Op::AccessField), 2),
        (0x02, Some(Op::ConnectField), 1),
        (0x03, Some(Op::ExtendedAccessField), 3),
        (b'_', Some(Op::NamedField), 2),
        (b'0', None, 0),
    ];
    for (byte, item, pieces) in rows {
        assert!(rt; begins_item(*byte, *item, *pieces), "{byte}");
    }
    assert!(rt; matches!(item_pieces(Op::ReservedField), [Piece::Bits]));
}

/// Where a sum may stand.
#[test]
fn rulings(rt: HostRuntime) {
    let rows: &[(Code, Spot, Ruling)] = &[
        (Code::Body, Spot::Size, Ruling::Fine),
        (Code::Module, Spot::Size, Ruling::Outside),
        (Code::Module, Spot::Target, Ruling::Unknown),
    ];
    for (code, spot, ruling) in rows {
        let found = ruling_of(*code, *spot, Class::Expression);
        assert!(rt; found == *ruling, "{found:?}");
    }
}

/// What a name is where it stands.
#[test]
fn namings(rt: HostRuntime) {
    let rows: &[(Code, Spot, Naming)] = &[
        (Code::Body, Spot::Statement, Naming::Invoked),
        (Code::Module, Spot::Statement, Naming::Outside),
        (Code::Module, Spot::Element, Naming::Plain),
        (Code::Body, Spot::Data, Naming::Unknown),
    ];
    for (code, spot, naming) in rows {
        let found = naming_of(*code, *spot);
        assert!(rt; found == *naming, "{found:?}");
    }
}

#[test]
fn sizes_of_numbers(rt: HostRuntime) {
    let rows: &[(NumberSize, usize)] = &[
        (NumberSize::Byte, 1),
        (NumberSize::Word, 2),
        (NumberSize::DWord, 4),
        (NumberSize::QWord, 8),
    ];
    for (number, size) in rows {
        assert!(rt; number.size() == *size, "{size}");
    }
}
