//! The table of tin32.

/// How the instructions of tin32 do the work of each tile.
pub const TIN32_TAB: &[u8] = b"// A table for tin32, which has an instruction for each tile.
tables tin32 1;

// Moves
tile move = move [] (own, par 1);
tile const = const [] (own, const k);

// Arithmetic, logic and shifts
tile add = add [] (own, par 1, par 2);
tile sub = sub [] (own, par 1, par 2);
tile neg = neg [] (own, par 1);
tile and = and [] (own, par 1, par 2);
tile or = or [] (own, par 1, par 2);
tile xor = xor [] (own, par 1, par 2);
tile com = com [] (own, par 1);
tile shl = shl [] (own, par 1, par 2);
tile shrl = shrl [] (own, par 1, par 2);
tile shra = shra [] (own, par 1, par 2);

// Comparisons whose result is a word
tile seteq = seteq [] (own, par 1, par 2);
tile setne = setne [] (own, par 1, par 2);
tile setlt = setlt [] (own, par 1, par 2);
tile setltu = setltu [] (own, par 1, par 2);

// Branches. The target is the operand behind the two registers.
tile breq = breq [] (par 0, par 1, par 2);
tile brne = brne [] (par 0, par 1, par 2);
tile brlt = brlt [] (par 0, par 1, par 2);
tile brge = brge [] (par 0, par 1, par 2);
tile brltu = brltu [] (par 0, par 1, par 2);
tile brgeu = brgeu [] (par 0, par 1, par 2);

// Loads and stores. A store writes no register, so its first register is operand 0.
tile ldb = ldb [] (own, par 1);
tile ldh = ldh [] (own, par 1);
tile ldw = ldw [] (own, par 1);
tile stb = stb [] (par 0, par 1);
tile sth = sth [] (par 0, par 1);
tile stw = stw [] (par 0, par 1);

// Jumps, calls and returns. call and ret name r[15] themselves.
tile goto = goto [] (par 0);
tile call = call [] (par 0);
tile ret = ret [] ();

// The frame
tile savelink = savelink [] (const k);
tile loadlink = loadlink [] (const k);
tile spill = spill [] (par 0, const k);
tile reload = reload [] (own, const k);
tile frame = op_frame [] (const k);

// Input, output and the two ways to end
tile in = in [] (own);
tile out = op_out [] (par 0);
tile halt = op_halt [] (par 0);
tile trap = op_trap [] (const k);

// Multiplication and division
tile mul = mul [] (own, par 1, par 2);
tile divu = divu [] (own, par 1, par 2);
tile modu = modu [] (own, par 1, par 2);
tile quot = quot [] (own, par 1, par 2);
tile rem = rem [] (own, par 1, par 2);
";
