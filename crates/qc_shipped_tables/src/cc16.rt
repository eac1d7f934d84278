//! The table of cc16.

/// How the instructions of cc16 do the work of each tile.
pub const CC16_TAB: &[u8] =
    b"// A table for cc16. An instruction whose first operand is read and written is computed into a register of its own, which
// mov then brings where the value is wanted. r 6 is the link, and the frame register r 7 is named by the instructions.
tables cc16 1;

// Moves
tile move = mov [] (own, par 1);
tile const = ldi [] (own, const k);

// Arithmetic, logic and shifts
tile add = mov [] (own, add [] (mov [] (own, par 1), par 2));
tile sub = mov [] (own, sub [] (mov [] (own, par 1), par 2));
tile neg = mov [] (own, sub [neg_sub @ e] (ldi [] (own, const 0'16), par 1));
tile and = mov [] (own, and [] (mov [] (own, par 1), par 2));
tile or = mov [] (own, or [] (mov [] (own, par 1), par 2));
tile xor = mov [] (own, xor [] (mov [] (own, par 1), par 2));
tile com = mov [] (own, not [] (mov [] (own, par 1)));
tile shl = mov [] (own, shl [] (mov [] (own, par 1), par 2));
tile shrl = mov [] (own, shr [] (mov [] (own, par 1), par 2));
tile shra = mov [] (own, sar [] (mov [] (own, par 1), par 2));

// Comparisons whose result is a word, by the condition codes that cmp sets just before
tile seteq = sz [] (own) after cmp [] (par 1, par 2);
tile setne = snz [ne_eq @ 0.2.0] (own) after cmp [] (par 1, par 2);
tile setlt = sl [] (own) after cmp [] (par 1, par 2);
tile setltu = slo [] (own) after cmp [] (par 1, par 2);

// Branches
tile breq = bz [] (par 2) after cmp [] (par 0, par 1);
tile brne = bnz [ne_eq @ 0.0] (par 2) after cmp [] (par 0, par 1);
tile brlt = bl [] (par 2) after cmp [] (par 0, par 1);
tile brge = bnl [ge_lt @ 0.0] (par 2) after cmp [] (par 0, par 1);
tile brltu = blo [] (par 2) after cmp [] (par 0, par 1);
tile brgeu = bnlo [geu_ltu @ 0.0] (par 2) after cmp [] (par 0, par 1);

// Loads and stores. A store's first operand is the register that is stored.
tile ldb = lb [] (own, par 1);
tile ldw = lw [] (own, par 1);
tile stb = sb [] (par 1, par 0);
tile stw = sw [] (par 1, par 0);

// Jumps, calls and returns
tile goto = jmp [] (par 0);
tile call = jsr [] (par 0);
tile ret = rts [] ();

// The frame
tile savelink = sts [] (cell r 6, const k);
tile loadlink = lds [] (own, const k);
tile spill = sts [] (par 0, const k);
tile reload = lds [] (own, const k);
tile frame = adds [] (const k);

// Input, output and the two ways to end
tile in = inp [] (own);
tile out = outp [] (par 0);
tile halt = hlt [] (par 0);
tile trap = trp [] (const k);

// cc16 neither multiplies nor divides.
tile mul missing;
tile divu missing;
tile modu missing;
tile quot missing;
tile rem missing;
";
