//! Designs with cells.
use crate::tests::route;
use std::test::Fail;

/// A library of one cell, in 2000 units.
const LEF: &[u8] = b"\
VERSION 5.8 ;
BUSBITCHARS \"[]\" ;
DIVIDERCHAR \"/\" ;
UNITS
  DATABASE MICRONS 2000 ;
END UNITS
MANUFACTURINGGRID 0.0025 ;
PROPERTYDEFINITIONS
  LAYER LEF58_TYPE STRING ;
END PROPERTYDEFINITIONS
SITE core
  CLASS CORE ;
  SIZE 0.1 BY 1 ;
END core
LAYER M1
  TYPE ROUTING ;
  DIRECTION HORIZONTAL ;
  PITCH 0.1 0.1 ;
  WIDTH 0.05 ;
  AREA 0.02 ;
  SPACINGTABLE
    PARALLELRUNLENGTH 0 0.5
    WIDTH 0 0.05 0.05
    WIDTH 0.2 0.05 0.15 ;
  SPACING 0.06 ENDOFLINE 0.06 WITHIN 0.02 ;
  PROPERTY LEF58_TYPE \"TYPE
    HIGHR ;\" ;
END M1
LAYER C1
  TYPE CUT ;
  SPACING 0.05 ;
END C1
LAYER M2
  TYPE ROUTING ;
  DIRECTION VERTICAL ;
  PITCH 0.1 ;
  WIDTH 0.05 ;
  SPACING 0.05 ;
END M2
VIA V12 DEFAULT
  LAYER M1 ;
    RECT -0.025 -0.025 0.025 0.025 ;
  LAYER C1 ;
    RECT -0.0125 -0.0125 0.0125 0.0125 ;
  LAYER M2 ;
    RECT -0.025 -0.025 0.025 0.025 ;
END V12
VIARULE V12gen GENERATE
  LAYER M1 ;
    ENCLOSURE 0.01 0.01 ;
END V12gen
MACRO INV
  CLASS CORE ;
  ORIGIN 0 0 ;
  SIZE 1 BY 1 ;
  SITE core ;
  PIN A
    DIRECTION INPUT ;
    PORT
      LAYER M1 ;
        RECT 0.025 0.125 0.075 0.175 ;
    END
  END A
  PIN Y
    DIRECTION OUTPUT ;
    PORT
      LAYER M1 ;
        RECT 0.425 0.225 0.475 0.275 ;
    END
  END Y
  OBS
    LAYER M1 ;
      RECT 0.225 0.325 0.275 0.375 ;
  END
END INV
END LIBRARY
";

/// Two cells beside each other, the second one flipped, a rail above them, and a net between them.
const DEF: &[u8] = b"\
VERSION 5.8 ;
DIVIDERCHAR \"/\" ;
BUSBITCHARS \"[]\" ;
DESIGN slice ;
UNITS DISTANCE MICRONS 2000 ;
DIEAREA ( 0 0 ) ( 4000 2000 ) ;
ROW core_0 core 0 0 N DO 20 BY 1 STEP 200 0 ;
TRACKS Y 100 DO 10 STEP 200 LAYER M1 ;
TRACKS X 100 DO 20 STEP 200 LAYER M1 ;
TRACKS X 100 DO 20 STEP 200 LAYER M2 ;
TRACKS Y 100 DO 10 STEP 200 LAYER M2 ;
GCELLGRID X 0 DO 3 STEP 2000 ;
GCELLGRID Y 0 DO 2 STEP 2000 ;
VIAS 1 ;
- VP + VIARULE V12gen + CUTSIZE 50 50 + LAYERS M1 C1 M2
  + CUTSPACING 100 100 + ENCLOSURE 20 20 20 20 + ROWCOL 1 2 ;
END VIAS
COMPONENTS 2 ;
- u1 INV + SOURCE NETLIST + PLACED ( 0 0 ) N ;
- u2 INV + PLACED ( 2000 0 ) FN ;
END COMPONENTS
SPECIALNETS 1 ;
- VDD ( * VDD )
  + ROUTED M1 100 + SHAPE FOLLOWPIN ( 0 1950 ) ( 4000 * )
  NEW M1 0 + SHAPE STRIPE ( 2000 1950 ) VP
  + USE POWER ;
END SPECIALNETS
NETS 1 ;
- n1 ( u1 Y ) ( u2 A ) + USE SIGNAL ;
END NETS
END DESIGN
";

/// The wire leaves the first cell's pin at (900, 500), and ends in the second one's at (3900, 300):
/// 3000 along M1, 200 along M2 and two vias.
const REPORT: &[u8] = b"\
nets 1
joined 1
stuck 0
unguided 0
prewired 0
single 0
rips 0
wire 3200
vias 2
skipped 5
skipped-in M1 4
skipped-in - 1
";

#[test]
fn routes_between_cells(rt: HostRuntime) -> Result<(), Fail> {
    let ran = route(rt.alloc(), LEF, DEF)?;
    assert_eq!(rt; ran.done.status, 0);
    assert_eq!(rt; ran.out.text(), REPORT);
    Ok(())
}
