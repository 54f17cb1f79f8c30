// The lengths that an opcode alone fixes (document 01, "What changes shape"): one table of 256 entries. Those of the reserved opcodes
// are 0 (document 02, request 6). And the lengths of `wide` before an opcode.
#![tactic(auto)]

ghost use Rattle.std.specs.Prelude.{◌≡◌};
ghost use Rattle.basics.specs.Bytes.{byte_at};
ghost use Rattle.fixed.specs.Fixed.{fixed_length, wide_by, FixedLengths};

use opcode::Opcode;

// The table of fixed lengths, to be made once and lent.
pub fn fixed_lengths() -> [u8; 256]
    ensures { FixedLengths result }
{
    FIXED_LENGTHS
}

// A lent table's entry for an opcode.
pub fn fixed_by(lengths: &[u8; 256], op: u8) -> u8
    ensures { result ≡ byte_at lengths.now op }
{
    lengths[op as usize]
}

// The length that the opcode alone fixes, 0 where it does not.
pub fn fixed_length(op: u8) -> u8
    ensures { result ≡ fixed_length op }
{
    let lengths = fixed_lengths();
    fixed_by(&lengths, op)
}

// The bytes of `wide` before an opcode.
pub fn wide_by(op: u8) -> u8
    ensures { result ≡ wide_by op }
{
    if op == Opcode::IINC { 6 } else { 4 }
}

// The length of each opcode's instruction, 0 where the opcode fixes none: wide, tableswitch, lookupswitch and the reserved ones.
const FIXED_LENGTHS: [u8; 256] = [
    1, // 0 nop
    1, // 1 aconst_null
    1, // 2 iconst_m1
    1, // 3 iconst_0
    1, // 4 iconst_1
    1, // 5 iconst_2
    1, // 6 iconst_3
    1, // 7 iconst_4
    1, // 8 iconst_5
    1, // 9 lconst_0
    1, // 10 lconst_1
    1, // 11 fconst_0
    1, // 12 fconst_1
    1, // 13 fconst_2
    1, // 14 dconst_0
    1, // 15 dconst_1
    2, // 16 bipush
    3, // 17 sipush
    2, // 18 ldc
    3, // 19 ldc_w
    3, // 20 ldc2_w
    2, // 21 iload
    2, // 22 lload
    2, // 23 fload
    2, // 24 dload
    2, // 25 aload
    1, // 26 iload_0
    1, // 27 iload_1
    1, // 28 iload_2
    1, // 29 iload_3
    1, // 30 lload_0
    1, // 31 lload_1
    1, // 32 lload_2
    1, // 33 lload_3
    1, // 34 fload_0
    1, // 35 fload_1
    1, // 36 fload_2
    1, // 37 fload_3
    1, // 38 dload_0
    1, // 39 dload_1
    1, // 40 dload_2
    1, // 41 dload_3
    1, // 42 aload_0
    1, // 43 aload_1
    1, // 44 aload_2
    1, // 45 aload_3
    1, // 46 iaload
    1, // 47 laload
    1, // 48 faload
    1, // 49 daload
    1, // 50 aaload
    1, // 51 baload
    1, // 52 caload
    1, // 53 saload
    2, // 54 istore
    2, // 55 lstore
    2, // 56 fstore
    2, // 57 dstore
    2, // 58 astore
    1, // 59 istore_0
    1, // 60 istore_1
    1, // 61 istore_2
    1, // 62 istore_3
    1, // 63 lstore_0
    1, // 64 lstore_1
    1, // 65 lstore_2
    1, // 66 lstore_3
    1, // 67 fstore_0
    1, // 68 fstore_1
    1, // 69 fstore_2
    1, // 70 fstore_3
    1, // 71 dstore_0
    1, // 72 dstore_1
    1, // 73 dstore_2
    1, // 74 dstore_3
    1, // 75 astore_0
    1, // 76 astore_1
    1, // 77 astore_2
    1, // 78 astore_3
    1, // 79 iastore
    1, // 80 lastore
    1, // 81 fastore
    1, // 82 dastore
    1, // 83 aastore
    1, // 84 bastore
    1, // 85 castore
    1, // 86 sastore
    1, // 87 pop
    1, // 88 pop2
    1, // 89 dup
    1, // 90 dup_x1
    1, // 91 dup_x2
    1, // 92 dup2
    1, // 93 dup2_x1
    1, // 94 dup2_x2
    1, // 95 swap
    1, // 96 iadd
    1, // 97 ladd
    1, // 98 fadd
    1, // 99 dadd
    1, // 100 isub
    1, // 101 lsub
    1, // 102 fsub
    1, // 103 dsub
    1, // 104 imul
    1, // 105 lmul
    1, // 106 fmul
    1, // 107 dmul
    1, // 108 idiv
    1, // 109 ldiv
    1, // 110 fdiv
    1, // 111 ddiv
    1, // 112 irem
    1, // 113 lrem
    1, // 114 frem
    1, // 115 drem
    1, // 116 ineg
    1, // 117 lneg
    1, // 118 fneg
    1, // 119 dneg
    1, // 120 ishl
    1, // 121 lshl
    1, // 122 ishr
    1, // 123 lshr
    1, // 124 iushr
    1, // 125 lushr
    1, // 126 iand
    1, // 127 land
    1, // 128 ior
    1, // 129 lor
    1, // 130 ixor
    1, // 131 lxor
    3, // 132 iinc
    1, // 133 i2l
    1, // 134 i2f
    1, // 135 i2d
    1, // 136 l2i
    1, // 137 l2f
    1, // 138 l2d
    1, // 139 f2i
    1, // 140 f2l
    1, // 141 f2d
    1, // 142 d2i
    1, // 143 d2l
    1, // 144 d2f
    1, // 145 i2b
    1, // 146 i2c
    1, // 147 i2s
    1, // 148 lcmp
    1, // 149 fcmpl
    1, // 150 fcmpg
    1, // 151 dcmpl
    1, // 152 dcmpg
    3, // 153 ifeq
    3, // 154 ifne
    3, // 155 iflt
    3, // 156 ifge
    3, // 157 ifgt
    3, // 158 ifle
    3, // 159 if_icmpeq
    3, // 160 if_icmpne
    3, // 161 if_icmplt
    3, // 162 if_icmpge
    3, // 163 if_icmpgt
    3, // 164 if_icmple
    3, // 165 if_acmpeq
    3, // 166 if_acmpne
    3, // 167 goto
    3, // 168 jsr
    2, // 169 ret
    0, // 170 tableswitch
    0, // 171 lookupswitch
    1, // 172 ireturn
    1, // 173 lreturn
    1, // 174 freturn
    1, // 175 dreturn
    1, // 176 areturn
    1, // 177 return
    3, // 178 getstatic
    3, // 179 putstatic
    3, // 180 getfield
    3, // 181 putfield
    3, // 182 invokevirtual
    3, // 183 invokespecial
    3, // 184 invokestatic
    5, // 185 invokeinterface
    5, // 186 invokedynamic
    3, // 187 new
    2, // 188 newarray
    3, // 189 anewarray
    1, // 190 arraylength
    1, // 191 athrow
    3, // 192 checkcast
    3, // 193 instanceof
    1, // 194 monitorenter
    1, // 195 monitorexit
    0, // 196 wide
    4, // 197 multianewarray
    3, // 198 ifnull
    3, // 199 ifnonnull
    5, // 200 goto_w
    5, // 201 jsr_w
    0, // 202 breakpoint
    0, // 203 reserved
    0, // 204 reserved
    0, // 205 reserved
    0, // 206 reserved
    0, // 207 reserved
    0, // 208 reserved
    0, // 209 reserved
    0, // 210 reserved
    0, // 211 reserved
    0, // 212 reserved
    0, // 213 reserved
    0, // 214 reserved
    0, // 215 reserved
    0, // 216 reserved
    0, // 217 reserved
    0, // 218 reserved
    0, // 219 reserved
    0, // 220 reserved
    0, // 221 reserved
    0, // 222 reserved
    0, // 223 reserved
    0, // 224 reserved
    0, // 225 reserved
    0, // 226 reserved
    0, // 227 reserved
    0, // 228 reserved
    0, // 229 reserved
    0, // 230 reserved
    0, // 231 reserved
    0, // 232 reserved
    0, // 233 reserved
    0, // 234 reserved
    0, // 235 reserved
    0, // 236 reserved
    0, // 237 reserved
    0, // 238 reserved
    0, // 239 reserved
    0, // 240 reserved
    0, // 241 reserved
    0, // 242 reserved
    0, // 243 reserved
    0, // 244 reserved
    0, // 245 reserved
    0, // 246 reserved
    0, // 247 reserved
    0, // 248 reserved
    0, // 249 reserved
    0, // 250 reserved
    0, // 251 reserved
    0, // 252 reserved
    0, // 253 reserved
    0, // 254 impdep1
    0, // 255 impdep2
];
