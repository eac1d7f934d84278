//! The table of rv32im.

/// How the instructions of rv32im do the work of each tile.
pub const RV32IM_TAB: &[u8] =
    b"// A table for rv32im. The cell r 0 is the machine's zero, r 1 its link and r 2 its frame.
tables rv32im 1;

// Moves. A constant is made in two parts: addi extends its lower 12 bits with their sign, so lui gets the upper 20 of
// what is left of the constant without them.
tile move = addi [add_zero @ 0.2] (own, par 1, const 0'12);
tile const = addi [split12 @ 0.2] (own,
  lui [] (own, const slice 12 20 (sub(k, sx 32 (slice 0 12 (k))))), const slice 0 12 (k));

// Arithmetic, logic and shifts
tile add = add [] (own, par 1, par 2);
tile sub = sub [] (own, par 1, par 2);
tile neg = sub [neg_sub @ 0.2] (own, cell r 0, par 1);
tile and = and [] (own, par 1, par 2);
tile or = or [] (own, par 1, par 2);
tile xor = xor [] (own, par 1, par 2);
tile com = xori [com_xor @ 0.2] (own, par 1, const 0xFFF'12);
tile shl = sll [] (own, par 1, par 2);
tile shrl = srl [] (own, par 1, par 2);
tile shra = sra [] (own, par 1, par 2);

// Comparisons whose result is a word. Two words are equal where their exclusive or is below 1, and differ where it is
// above 0.
tile seteq = sltiu [eq_ltu @ 0.2.0] (own, xor [] (own, par 1, par 2), const 1'12);
tile setne = sltu [ne_ltu @ 0.2.0] (own, cell r 0, xor [] (own, par 1, par 2));
tile setlt = slt [] (own, par 1, par 2);
tile setltu = sltu [] (own, par 1, par 2);

// Branches
tile breq = beq [] (par 0, par 1, par 2);
tile brne = bne [] (par 0, par 1, par 2);
tile brlt = blt [] (par 0, par 1, par 2);
tile brge = bge [] (par 0, par 1, par 2);
tile brltu = bltu [] (par 0, par 1, par 2);
tile brgeu = bgeu [] (par 0, par 1, par 2);

// Loads and stores, which add 0 to the address
tile ldb = lbu [add_zero @ 0.2.0.0] (own, par 1, const 0'12);
tile ldh = lhu [add_zero @ 0.2.0.0] (own, par 1, const 0'12);
tile ldw = lw [add_zero @ 0.2.0] (own, par 1, const 0'12);
tile stb = sb [add_zero @ 0.1] (par 0, par 1, const 0'12);
tile sth = sh [add_zero @ 0.1] (par 0, par 1, const 0'12);
tile stw = sw [add_zero @ 0.1] (par 0, par 1, const 0'12);

// Jumps, calls and returns. What jal and jalr write besides goes to the zero register where it isn't wanted.
tile goto = jal [] (spare, par 0);
tile call = jal [] (own, par 0);
tile ret = jalr [add_zero @ 0.2.0] (spare, cell r 1, const 0'12);

// The frame. Its offset is a whole word, so it is made as a constant is.
tile savelink = sw [] (cell r 2, cell r 1, const k);
tile loadlink = lw [] (own, cell r 2, const k);
tile spill = sw [] (cell r 2, par 0, const k);
tile reload = lw [] (own, cell r 2, const k);
tile frame = add [] (own, cell r 2, addi [split12 @ e] (own,
  lui [] (own, const slice 12 20 (sub(k, sx 32 (slice 0 12 (k))))), const slice 0 12 (k)));

// Input, output and the two ways to end
tile in = in [] (own);
tile out = op_out [] (par 0);
tile halt = op_halt [] (par 0);
tile trap = op_trap [] (const k);

// Multiplication and division
tile mul = mul [] (own, par 1, par 2);
tile divu = divu [] (own, par 1, par 2);
tile modu = remu [] (own, par 1, par 2);
tile quot = div [] (own, par 1, par 2);
tile rem = rem [] (own, par 1, par 2);
";
